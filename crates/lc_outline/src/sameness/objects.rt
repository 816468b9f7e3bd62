//! Objects.
use crate::sameness::{Same, are_same};
use lc_object::{Array, Column, EdgeKind, Instr, LocalId, Object, Operation, Parts, Point};

impl Same for EdgeKind {
    ghost use Rattle.lc_object.specs.declared.instr.EdgeKind.{EdgeKind};

    ghost Shown = { EdgeKind };

    ghost shown = { λ kind. kind };

    fn is_same(&self, other: &EdgeKind) -> bool {
        match (*self, *other) {
            (EdgeKind::Next, EdgeKind::Next) => true,
            (EdgeKind::Then, EdgeKind::Then) => true,
            (EdgeKind::Else, EdgeKind::Else) => true,
            _ => false,
        }
    }
}

impl Same for LocalId {
    ghost use Rattle.std.specs.Prelude.{ℕ};

    ghost Shown = { ℕ };

    ghost shown = { λ l. l.0 };

    fn is_same(&self, other: &LocalId) -> bool {
        self.0 == other.0
    }
}

impl Same for Instr {
    ghost use Rattle.lc_object.specs.Syntax as S;
    ghost use Rattle.lc_object.specs.View.{instruction_of};

    ghost Shown = { S.Instr };

    ghost shown = { instruction_of };

    fn is_same(&self, other: &Instr) -> bool {
        match (self, other) {
            (
                Instr::Load {
                    array: a,
                    index: i,
                    targets: rs,
                    next: l,
                },
                Instr::Load {
                    array,
                    index,
                    targets,
                    next,
                },
            ) => a.0 == array.0 && i.is_same(index) && are_same(rs, targets) && l == next,
            (
                Instr::Store {
                    array: a,
                    index: i,
                    values: vs,
                    next: l,
                },
                Instr::Store {
                    array,
                    index,
                    values,
                    next,
                },
            ) => a.0 == array.0 && i.is_same(index) && are_same(vs, values) && l == next,
            (
                Instr::Cas {
                    array: a,
                    index: i,
                    old: vs,
                    new: ws,
                    equal: l,
                    different: m,
                },
                Instr::Cas {
                    array,
                    index,
                    old,
                    new,
                    equal,
                    different,
                },
            ) => {
                a.0 == array.0
                    && i.is_same(index)
                    && are_same(vs, old)
                    && are_same(ws, new)
                    && l == equal
                    && m == different
            }
            (
                Instr::Set {
                    targets: rs,
                    values: vs,
                    next: l,
                },
                Instr::Set {
                    targets,
                    values,
                    next,
                },
            ) => are_same(rs, targets) && are_same(vs, values) && l == next,
            (
                Instr::Faa {
                    array: a,
                    index: i,
                    targets: rs,
                    added: ds,
                    next: l,
                },
                Instr::Faa {
                    array,
                    index,
                    targets,
                    added,
                    next,
                },
            ) => {
                a.0 == array.0
                    && i.is_same(index)
                    && are_same(rs, targets)
                    && are_same(ds, added)
                    && l == next
            }
            (
                Instr::If {
                    condition: f,
                    holds: l,
                    fails: m,
                },
                Instr::If {
                    condition,
                    holds,
                    fails,
                },
            ) => f.is_same(condition) && l == holds && m == fails,
            (Instr::Return { values: vs }, Instr::Return { values }) => are_same(vs, values),
            _ => false,
        }
    }
}

impl Same for Column {
    ghost use Rattle.lc_object.specs.Syntax as S;
    ghost use Rattle.lc_object.specs.View.{column_view};

    ghost Shown = { S.Column };

    ghost shown = { column_view };

    fn is_same(&self, other: &Column) -> bool {
        self.name.is_same(&other.name) && self.slope == other.slope && self.start == other.start
    }
}

impl Same for Array {
    ghost use Rattle.lc_object.specs.Syntax as S;
    ghost use Rattle.lc_object.specs.View.{array_of};

    ghost Shown = { S.Array };

    ghost shown = { array_of };

    fn is_same(&self, other: &Array) -> bool {
        self.name.is_same(&other.name) && are_same(&self.columns, &other.columns)
    }
}

impl Same for Operation {
    ghost use Rattle.lc_object.specs.Syntax as S;
    ghost use Rattle.lc_object.specs.View.{operation_of};

    ghost Shown = { S.Operation };

    ghost shown = { operation_of };

    fn is_same(&self, other: &Operation) -> bool {
        self.name.is_same(&other.name)
            && are_same(&self.arguments, &other.arguments)
            && self.replies == other.replies
            && are_same(&self.locals, &other.locals)
            && self.entry == other.entry
    }
}

impl Same for Point {
    ghost use Rattle.lc_object.specs.Syntax as S;
    ghost use Rattle.lc_object.specs.View.{point_of};

    ghost Shown = { S.Point };

    ghost shown = { point_of };

    fn is_same(&self, other: &Point) -> bool {
        self.name.is_same(&other.name)
            && self.operation == other.operation
            && self.instruction.is_same(&other.instruction)
    }
}

impl Same for Parts {
    ghost use Rattle.lc_object.specs.Syntax as S;
    ghost use Rattle.lc_object.specs.View.{parts_of};

    ghost Shown = { S.Object };

    ghost shown = { parts_of };

    fn is_same(&self, other: &Parts) -> bool {
        self.name.is_same(&other.name)
            && are_same(&self.abstracts, &other.abstracts)
            && are_same(&self.concretes, &other.concretes)
            && are_same(&self.auxiliaries, &other.auxiliaries)
            && are_same(&self.arrays, &other.arrays)
            && are_same(&self.operations, &other.operations)
            && are_same(&self.points, &other.points)
    }
}

impl Same for Object {
    ghost use Rattle.lc_object.specs.Syntax as S;
    ghost use Rattle.lc_object.specs.Objects.{object_view};

    ghost Shown = { S.Object };

    ghost shown = { object_view };

    fn is_same(&self, other: &Object) -> bool {
        self.parts().is_same(other.parts())
    }
}
