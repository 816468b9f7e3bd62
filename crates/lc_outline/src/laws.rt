//! Laws of the definitions: functions without effect, whose contracts are the laws.
ghost use Rattle.lc_outline.specs.Agreement.{OperationsAgree, CallsAreSmall};
ghost use Rattle.lc_outline.specs.Limits.{WhatPassesIsLimited};
ghost use Rattle.lc_outline.specs.Resolved.{WhatPassesIsResolved, WhatPassesIsScoped};
ghost use Rattle.lc_outline.specs.Scope.{WhatIsScopedIsKnown};

use crate::development::Development;

/// In a development whose names are resolved each operation of the object takes as many arguments, and gives as many replies,
/// as the operation of that number of the specification; and each takes and gives at most three.
pub fn operations_agree()
    ensures agree { OperationsAgree }
    ensures small { CallsAreSmall }
{}

/// A development that passes the test of its type is resolved.
pub fn developments_are_resolved()
    ensures { WhatPassesIsResolved }
{}

fn is_sent<T: Send + Drop>(_value: T) {}

fn is_shared<T: Sync>(_value: &T) {}

/// A development may be handed to another thread.
pub fn sends(development: Development) {
    is_sent(development)
}

/// A development may be read by several threads at once.
pub fn shares(development: &Development) {
    is_shared(development)
}

/// Each term and formula of a development that passes the test of its type speaks only of columns and variables that there are;
/// so each of its terms, and each of its formulas without quantifiers, can be computed.
pub fn terms_are_in_scope()
    ensures scoped { WhatPassesIsScoped }
    ensures known { WhatIsScopedIsKnown }
{}

/// A development that passes the test of limits of its type is within the limits of columns, actions and conditions, as these are
/// counted, and at each edge within those of riders and paths.
pub fn developments_are_limited()
    ensures { WhatPassesIsLimited }
{}
