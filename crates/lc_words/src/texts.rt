//! What each command says of itself when it is asked for help.

pub(crate) const VERSION: &str = "0.1.0";

pub(crate) const ABOUT: &str = "Checks written proofs that concurrent objects are linearizable";

pub(crate) const EXIT_STATUS: &str = "\
A file that is not accepted is answered by one line on standard output: `refused`, a code, and numbers. With --explain each
command that reads files also says where and why, on standard error; on a terminal it does so unless --quiet is written. With
--json it says so by JSON objects, a line each, as editors read them. The path - is standard input.

Exit status:
  0  accepted, or what was asked for is printed
  1  refused
  2  the command line is wrong, and nothing was read
  3  a file cannot be read, or the answer cannot be written
  4  out of memory, or a thread cannot be started
  5  what has run is not handed in as it should be

Examples:
  lincheck formula examples/first.formula
      reads a statement with its proof, and prints `proved`
  lincheck judge examples/counter.spec examples/linearizable.json
      reads how two clients counted at the same time, and prints `linearizable`
  lincheck check examples/counter.lc examples/counter.cert
      reads what is claimed of a counter, with the proofs, and prints `accepted counter 59`
  lincheck prove examples/counter.lc
      reads what is claimed of a counter, and prints proofs of it
  lincheck run examples/counter.lc examples/counter.cert examples/counter.plan
      runs the counter in threads, and prints what happened with an order that linearizes it
  lincheck library queue
      prints a queue, with all that is claimed of it";

pub(crate) const EXPLAIN: &str =
    "Say on standard error where and why a file is refused; on a terminal, as if it were written";

pub(crate) const QUIET: &str = "Do not say it on a terminal, unless --explain is written";

pub(crate) const FORMULA: &str = "Checks the proof of one formula";

pub(crate) const FORMULA_FILE: &str =
    "A formula file: one form with the parts vars, cols, hyps, goal and proof";

pub(crate) const FORMULA_ANSWER: &str = "\
Reads FILE, which states that a goal follows from hypotheses, and gives a proof of it. Prints `proved` if each
step of the proof holds. Else it prints one line:
  refused 1 OFFSET     the byte there makes the text no s-expressions
  refused 2 ITEM       the item does not fit the grammar
  refused 3 ITEM       the name is not declared
  refused 4 ITEM       the name is declared twice, or reserved
  refused 6 ITEM       a number or a count is beyond a limit
  refused 11 0 STEP R  the step of the proof does not hold, for reason R
  refused 12 0 STEP    the arithmetic of the step leaves 128 bits
Bytes, items and steps are counted from 0, an item and a step each before those inside it.

Example:
  lincheck formula examples/first.formula
      reads that x = y follows from x <= y and y <= x, and prints `proved`";

pub(crate) const JUDGE: &str = "Judges whether an order linearizes a history";

pub(crate) const JUDGE_DEVELOPMENT: &str =
    "A file that begins with a specification; what comes after it is not looked at";

pub(crate) const JUDGE_HISTORY: &str =
    "A JSON file: an object with the arrays `events` and `order`";

pub(crate) const JUDGE_ANSWER: &str = "\
Reads the specification of an object in DEV, and in HISTORY the calls and returns of its clients, with an order of the
calls. Prints `linearizable` if the clients can have seen the object do the calls one after the other, in that order.
Else it prints one line:
  refused 1 OFFSET         the byte there makes DEV no s-expressions
  refused 2 ITEM           the item of DEV does not fit the grammar
  refused 3 ITEM           the name is not declared
  refused 4 ITEM           the name is declared twice, or reserved
  refused 6 ITEM           a number or a count is beyond a limit
  refused 13 ITEM          the item of HISTORY is not of the form: 0 is the whole, then come the events, then the order
  refused 14 PLACE REASON  the entry there, counted from 0, is out of order:
       1 it is not its client's call of this number, 2 the call returned another reply,
       3 after the last place: a call that returned is missing,
       4 the object does not give this reply here, or not by the choice that the entry names,
       5 the call of a later entry returned before this one began
  overflow                 a number that the specification reaches leaves 64 bits

Example:
  lincheck judge examples/counter.spec examples/linearizable.json
      reads how two clients counted at the same time, and prints `linearizable`";

pub(crate) const DRAW: &str = "Draws a history with its order";

pub(crate) const DRAW_HTML: &str = "Print a page for a browser in place of the picture";

pub(crate) const DRAW_AROUND: &str =
    "Draw only the calls near the entry at place N of the order; excludes --html";

pub(crate) const DRAW_WIDTH: &str =
    "With --around: those within N events before its mark and behind it; 100 without it";

pub(crate) const DRAW_ANSWER: &str = "\
Reads DEV and HISTORY as `order` does, and prints a picture as SVG: a line for each client, a bar for each call from its beginning
to its return, open at the right if it has not returned, and in the bars the entries of the order as marks with their places.
What makes the order no linearization is marked, and the reason is written below. If HISTORY has no order, one is looked for, as by
`order`; if there is none, a line is behind the event up to which no order linearizes the events. With --html it prints a page for a
browser, one file without anything from elsewhere: it draws what is in view of a history as long as may be, says of each call what it
is and of each entry what it changes in the state of the specification, and leads to the first fault and to pending calls. A file
that `order` refuses is refused here too.

With --around N the picture has only the calls near the entry at place N of the order: those that are open, begin or return within 100
events before its mark and behind it, or within as many as --width says. They are drawn from beginning to return, and marks have the places
that they have in the whole order. If no mark has this place, the line `no-such-place` is printed, and the status is 1.

Examples:
  lincheck draw examples/counter.spec examples/linearizable.json > history.svg
      prints a picture of two clients that counted at the same time
  lincheck draw examples/counter.spec examples/recorded.json --around 2 --width 1 > part.svg
      prints a picture of the calls near the entry at place 2 of the order that is found";

pub(crate) const ORDER: &str =
    "Finds an order that linearizes a recorded history, or shows that there is none";

pub(crate) const ORDER_HISTORY: &str =
    "A JSON file: an object with the array `events`, and with an array `order` or without";

pub(crate) const ORDER_CHECK: &str = "Print the word `linearizable` in place of the history";

pub(crate) const ORDER_BUDGET: &str =
    "How many nodes of a search are looked at; 10,000,000 without it";

pub(crate) const ORDER_ANSWER: &str = "\
Reads DEV as `judge` does, and in HISTORY what clients called and what came back, as it was recorded. Looks for an order of the calls that
linearizes the history, and prints the history with this order, as `judge` and `draw` read it. If HISTORY has an order that does,
that one is printed. Else it prints one line:
  refused CODE ..     DEV is refused as by `judge`, or HISTORY by code 13
  not linearizable N  no order linearizes the history, and none its first N events
  unknown             none was found, and of a call not all choices could be tried
  overflow            none was found, and a number that was reached leaves 64 bits
  budget              the search was given up
An order that is printed linearizes the history, and if it is said that there is none, there is none, whatever the object chooses.
A search can be long if an object shows late which of its calls came first, as a queue that has grown long.

Examples:
  lincheck order examples/counter.spec examples/recorded.json
      prints what three clients saw of a counter, with an order that `judge` accepts
  lincheck order examples/counter.spec examples/recorded.json --check
      prints `linearizable`";

pub(crate) const COMPLETE: &str = "Makes a short development whole";

pub(crate) const SHORT: &str =
    "A development without some of its actions and assertions, and without sections that would be empty";

pub(crate) const COMPLETE_BUDGET: &str =
    "How many steps are tried for a condition; 1,000,000 without it";

pub(crate) const COMPLETE_ANSWER: &str = "\
Reads in SHORT the specification of an object, its code with its marks, and its invariant, and prints a development over lines, with
actions and assertions that were guessed; those stay that hold and are needed. What is written in SHORT is kept. If proofs of all of
its conditions were found the status is 0. Else the status is 1, the last line is a comment:
  ; incomplete COUNT       of so many conditions no proof was found
and standard error says which, by points: there something is to be asserted, or the object, a mark or the invariant is not right.
With --certificate FILE after these words a certificate of what is printed is put into FILE, if the status is 0.
A SHORT that is no short development is refused by one line, as a development is, by the codes 1 to 6.

Example:
  lincheck complete examples/short.lc > counter.lc
      prints a counter with the actions and assertions that it needs, which `prove` and `check` read";

pub(crate) const DEVELOPMENT: &str =
    "A development: a specification, the object's code, and what is claimed of it";

pub(crate) const SHOW: &str = "Prints a development as it was read";

pub(crate) const SHOW_LINES: &str = "Lay it out over lines, with indentation";

pub(crate) const SHOW_ANSWER: &str = "\
Reads DEV and prints it on two lines, the specification and the object, without comments, with one space between items; the
names that quantifiers bind are b0, b1, and so on, counted from the outermost. A DEV that is no development is refused as by
`check`.

With --lines it prints the two forms as they are in DEV, without comments, over lines of 100 columns: a list that does not fit
into the rest of its line goes on below, indented by 2. Laid out again, this text stays as it is.

Examples:
  lincheck show examples/counter.lc
      prints the counter's specification and its object
  lincheck show examples/counter.lc --lines
      prints them over lines with indentation";

pub(crate) const NEW: &str = "Prints a development to begin with";

pub(crate) const NEW_NAME: &str =
    "Its name: a letter or `_`, then letters, digits, `_`, `-` and `.`";

pub(crate) const NEW_ANSWER: &str = "\
Prints a small development of this name, a cell that clients put a number into and get it from, with a comment at each part that
says what it is for. No file is read. A NAME that means something else in developments, as `self`, is refused as by `show`.

Example:
  lincheck new mine > mine.lc
  lincheck show mine.lc --lines
      prints the development without its comments";

pub(crate) const CONDITIONS: &str = "Prints what has to be proved of a development";

pub(crate) const CONDITIONS_ANSWER: &str = "\
Reads DEV and prints a line for each of its conditions, and then `total` with their number:
  (condition K KIND POINT EDGE PATH NUM (vars V) (hyps F ..) (goal F))
If the goal of each follows from its hypotheses, in every state and for all numbers of its variables, the object is
linearizable. Lines are printed as they are made. A DEV that is no development is refused as by `check`.

With --at K it prints condition K alone, over lines; if there is none, `refused 10 K`. With --explain it also shows, on standard
error, the places of condition K in DEV, and its hypotheses by the names in DEV. With --only or --kind it prints the lines that have
this POINT and this KIND, and `total` with their number; if DEV has no such point, `no-such-point`.

Examples:
  lincheck conditions examples/counter.lc
      prints 59 conditions, and `total 59`
  lincheck conditions examples/counter.lc --at 9
      prints condition 9 over lines
  lincheck conditions examples/counter.lc --only p1 --kind invariant
      prints the conditions that the invariant holds after the step at p1";

pub(crate) const CONDITION_NUMBER: &str = "Print only the condition of this number, over lines";

pub(crate) const CONDITION_POINT: &str = "Print only those at this point";

pub(crate) const CONDITION_KIND: &str = "Print only those of this kind, as `stable`";

pub(crate) const CHECK: &str = "Checks that a certificate proves a development";

pub(crate) const CERTIFICATE_FILE: &str =
    "A certificate: one form with a proof for each condition, by its number";

pub(crate) const CHECK_ANSWER: &str = "\
Reads DEV and, if it is a development, CERT. Prints `accepted NAME COUNT`, the name of the object and how many
conditions it has, if CERT has a proof for each of them and each step holds. Then for every number of clients, however
their steps come between each other, the history of their calls and returns is linearizable. Else it prints one line:
  refused 1 OFFSET      the byte there makes DEV no s-expressions
  refused 2 ITEM        the item of DEV does not fit the grammar
  refused 3 ITEM        the name is not declared
  refused 4 ITEM        the name is declared twice, or reserved
  refused 5 ITEM        the code reads a column that is not its own
  refused 6 ITEM        a number or a count is beyond a limit
  refused 7 OFFSET      the byte there makes CERT no s-expressions
  refused 8 ITEM        the item of CERT does not fit
  refused 9 K           condition K has no proof
  refused 10 K          there is no condition K
  refused 11 K STEP R   the step of the proof of condition K does not hold, for reason R
  refused 12 K STEP     the arithmetic of the step leaves 128 bits

With --explain a refusal by the codes 9 to 12 is followed, on standard error, by what condition K asks, and by the hypotheses
at the step, numbered as proofs number them. So a proof is written by putting (open), and reading what is known there. With --all it
is said of each condition that is not proved; if that is most of them, CERT may be that of another version of DEV: see `carry`.

With more than one worker CERT is read whole before its proofs are checked. The answer is the same for every number.

Examples:
  lincheck check examples/counter.lc examples/counter.cert
      prints `accepted counter 59`
  lincheck check examples/counter.lc examples/counter.cert --workers 4
      prints the same, sooner if there is much to check";

pub(crate) const WORKERS: &str =
    "How many workers check proofs side by side, from 1 to 64; excludes --progress";

pub(crate) const CHECK_ALL: &str =
    "Say on standard error of each condition that has no proof, or one that does not hold";

pub(crate) const CHECK_PROGRESS: &str =
    "Say on standard error how many conditions are proved, a hundred times at most";

pub(crate) const PROVE: &str = "Finds a certificate of a development";

pub(crate) const HINTS: &str = "Hints: terms, formulas and proofs for conditions, by their numbers";

pub(crate) const COMPLETE_PROGRESS: &str =
    "Say on standard error how many guesses are tried in each round, and then which condition is looked at";

pub(crate) const PROGRESS: &str =
    "Say on standard error, by `condition K`, which condition is looked at";

pub(crate) const PROVE_ALL: &str =
    "Go on after a miss, and say on standard error for which conditions no proof was found";

pub(crate) const PROVE_ANSWER: &str = "\
Reads DEV and, if it is a development, the hints in FILE. Looks for a proof of each condition, and prints a certificate
of all, which `check` accepts. Else it prints one line:
  refused CODE ..  DEV is no development, or FILE no hints: the codes 1 to 6, as of `check`
  not-found K      no proof of condition K was found
  budget K         the search for condition K was given up, or the certificate would be too large
  large K          a number of the search for condition K leaves 128 bits
`conditions` prints the conditions by their numbers. For condition K, FILE offers terms (use K T ..), a formula (cut K F) or
a whole proof (by K P).
With -o FILE after these words the certificate is put into FILE, and `found NAME COUNT` is printed; if there is none, FILE stays as
it was.

Examples:
  lincheck prove examples/counter.lc
      prints a certificate of the counter, with 59 proofs
  lincheck prove examples/counter.lc -o counter.cert
      puts it into a file, and prints `found counter 59`";

pub(crate) const CARRY: &str = "Finds a certificate of a development that was changed";

pub(crate) const OLD: &str = "The development before it was changed";

pub(crate) const OLD_CERTIFICATE: &str = "Its certificate, which `check` accepts";

pub(crate) const NEW_DEVELOPMENT: &str = "The development after it was changed";

pub(crate) const NEW_HINTS: &str =
    "Hints for NEW: terms, formulas and proofs for its conditions, by their numbers";

pub(crate) const CARRY_ANSWER: &str = "\
Reads OLD and its certificate CERT, and then NEW and the hints in FILE. A condition of NEW that reads as one of OLD from `(vars`
on has the proof of that one, with the columns of the same names. For the others a proof is looked for as by `prove`. Prints a
certificate of NEW, which `check` accepts. Else it prints one line:
  refused CODE ..  OLD or CERT is refused as by `check`, or NEW or FILE as by `prove`
  not-found K      no proof of condition K of NEW was found
  budget K         the search for condition K was given up, or the certificate would be too large
  large K          a number of the search for condition K leaves 128 bits
With --explain it also says on standard error how many proofs were carried and found, and how many conditions are left. With
-o FILE the certificate is put into FILE, as by `prove`.

Example:
  lincheck carry examples/counter.lc examples/counter.cert examples/faa_counter.lc
      prints a certificate of a counter that adds in one step, with 51 proofs";

pub(crate) const RUN: &str = "Runs a development by clients in threads";

pub(crate) const PLAN_FILE: &str =
    "A plan: how many clients there are, and which calls they make in phases";

pub(crate) const RUN_SEED: &str =
    "Draw whose turn it is from the seed N, in one thread: the same seed runs the same";

pub(crate) const RUN_SEEDS: &str =
    "Make a run for each seed from A to before B, and print a line for each";

pub(crate) const RUN_TRACE: &str =
    "Print each step with the cells that it changes, in place of the history";

pub(crate) const RUN_ANSWER: &str = "\
Reads DEV and CERT as `check` does, and then PLAN. Runs the object by the clients of the plan, each in a thread of its own: the phases
come one after another, and in each its clients make their calls side by side. Prints `linearizable COUNT`, with the number of calls
that took effect, then a line for each client that did not come to its end, and then the history with an order of these calls that
linearizes it, as `judge` reads them. A client did not come to its end for one of these reasons, and makes no further call:
  client C spent     a call used all its turns
  client C overflow  a number leaves 64 bits
  client C full      1,000,000 steps were taken
Which steps come first may be another at each run. With --seed N they are taken by one thread, each by a client that is drawn among
those that make a further call in the phase: so the calls overlap, and the same DEV, PLAN and N print the same text everywhere. With
--seeds A..B such a run is made for each seed from A to before B, and for each one line is printed, with a word for each client that
did not come to its end:
  seed N linearizable COUNT client C spent ..
With --trace, and with --seed N or without, a line for each step is printed in place of the history, a JSON array, with the entries of
the marks that it makes and the cells that it changes:
  [CLIENT,\"call\",OPERATION,[NUMBER,..],[],[CELL,..]]
  [CLIENT,POINT,EDGE,[ENTRY,..],[CELL,..]]
  [CLIENT,\"return\",[NUMBER,..],[ENTRY,..],[CELL,..]]
An ENTRY is as in the order of a history, or [\"note\",ENTRY]; a CELL is [COLUMN,INDEX,NUMBER].
Else it prints one line:
  refused CODE ..  DEV or CERT is refused as by `check`, or PLAN by the codes 1 to 4 and 6

Examples:
  lincheck run examples/counter.lc examples/counter.cert examples/counter.plan
      prints `linearizable 201`, and how two clients counted to 200
  lincheck run examples/counter.lc examples/counter.cert examples/counter.plan --seeds 0..1000
      prints a line for each of a thousand runs
  lincheck run examples/counter.lc examples/counter.cert examples/counter.plan --seed 7 --trace
      prints the steps of the run of a seed";

pub(crate) const EXPLORE: &str = "Looks at all runs of a development in a small setting";

pub(crate) const EXPLORE_CLIENTS: &str = "In place of PLAN: N clients, which make any calls";

pub(crate) const EXPLORE_CALLS: &str = "Each of them makes at most N calls";

pub(crate) const EXPLORE_NUMBERS: &str = "The numbers of their calls (by default 0,1)";

pub(crate) const EXPLORE_BARE: &str = "Look at the code and the specification alone";

pub(crate) const EXPLORE_BUDGET: &str = "Meet at most N worlds (by default 1,000,000)";

pub(crate) const EXPLORE_ANSWER: &str = "\
Reads DEV as `show` does, and then PLAN as `run` does; no certificate is needed. Goes through all worlds that the clients reach by the calls of
PLAN, whatever the schedule: each client makes its calls one after another, whichever phase they are in, and a call takes as many turns as it
likes. In place of PLAN, --clients N and --calls M say that each of N clients makes at most M calls, any operation with any of the
numbers A, B, .. In each world the invariant and what is asserted of each client are looked at, and in each step the marks. Prints one line:
  explored COUNT    nothing is wrong: each history by these calls is linearizable; there are so many worlds
  fails K           a step is wrong, so no certificate of DEV is accepted; condition K is the first that fails there, if one is seen to
  overflow          a number of a run leaves 64 bits
  budget COUNT      there are more worlds than these
After `fails` and `overflow` stands a shortest run to such a step: a line for each step as `run --trace` prints it, and its history with the
order of its marks, as `draw` reads it. The last step is left out if a mark of it is not lawful, or if it leaves 64 bits.
With --bare nothing that stands beside the code is asked for: it is looked at whether some order explains the replies. Prints one line:
  explored COUNT    each history by these calls is linearizable; there are so many worlds, with what explains each
  not-linearizable  no order linearizes the history of a run, which stands behind it
  overflow          a number of a run leaves 64 bits
  unknown           no order of a run was found, and it was not shown that there is none
  budget COUNT      there are more worlds than these
Quantifiers are tried at the numbers from -1 to 8, and at all of a range that the formula gives. Else it prints one line:
  refused CODE ..  DEV is refused as by `show`, or PLAN as by `run`

Examples:
  lincheck explore examples/counter.lc --clients 2 --calls 2
      prints `explored 930`
  lincheck explore examples/counter.lc examples/pair.plan
      prints how many worlds two clients reach that add and read";

pub(crate) const LIBRARY: &str = "Prints an object of the library";

pub(crate) const OBJECT: &str =
    "The object: counter, stack, lock, snapshot, combining, rendezvous, queue or pool-stack";

pub(crate) const LIBRARY_CERTIFICATE: &str = "Prints its certificate";

pub(crate) const LIBRARY_HINTS: &str = "Prints its hints";

pub(crate) const LIBRARY_ANSWER: &str = "\
Prints the development of an object, with comments that explain it; or its certificate, which `check` accepts; or its hints, with
which `prove` makes that certificate. No file is read.

Example:
  lincheck library stack > stack.lc
  lincheck library stack --certificate > stack.cert
  lincheck check stack.lc stack.cert
      prints `accepted stack 775`";
