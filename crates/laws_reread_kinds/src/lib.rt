//! Normal forms are read back: the tokens of the normal form of a derived tree have a derived tree, of which that
//! normal form is kept. It is proved of trees that are covered (which those that were read are, as the crate
//! `laws_reread` shows), where what is to be known of expressions is (`Expressions`), which that crate proves too.
//! There the laws stand. There is no code.
//!
//! In `specs/`: `After` (what may follow a kind), `Covered` (the kinds whose steps are proved, and what the steps go
//! by).
//!
//! The proof goes shape first. `Fits` says that a tree has the form of its entry, whatever the tests say, as it is
//! printed; of a test that no shape shows, it has what was said (`IsMeant`). `Printed`: for each derived tree there is
//! one that fits, and of which the normal form is kept; of the kinds where more than their parts is to be known,
//! `KindLaws` has it, by `Tidied` (normal form tidies their parts), `Verdicts` (what was read is judged) and
//! `Indices`; behind a condition stands a brace (`Conditions`). A `Step` of a kind (`Readies`): where the parts of a
//! tree that fits are read back before what may follow them, so is the tree. `Fine` and `Parts` put steps together as
//! the entries are, by what tokens begin with (`Classes`). Most steps are written by `tools/steps.py` from the entries
//! (`StepsOf..`). By hand are those where more than first tokens decides: `HandSteps`, `ValueSteps`, `Fields` (by
//! `ClearFields`), `Predicates`, `Turbofish`, `Alternatives`, `References`, `Receivers` (by `Selves`), `Aliases`,
//! `Dotted`, `FieldValues`, `Turns`, `PathTypes` (types before `for`), `ImplParams`, `Impls` (by `Bracketed`),
//! `WholeItems` (by `ItemPlaces`, `MacroItems`, `ReadMacros` and `ItemVerdicts`), `Members`, `ForeignItems` (by
//! `ForeignMacros`), `Lets` (by `FirstWords` and `Braces`), `NamedMacros` (macros that are items among statements),
//! `Statements` (what is printed for one; by `Ends`, which has the forms that end there by themselves, and `InFront`,
//! which has the attributes in front of an expression) and `StatementLists`, `Arms`, and for the script `Seconds`,
//! `Params` and `FieldNames`; `RawItems` has how raw ones begin, and `RawTurns` those among statements whose last mark
//! is set apart, which are read back as `laws_items` says; `Passed` has what stands behind attributes. `Elements` has
//! the verdicts on lists, `CalledParts` where a part of a form is found by its name, and `Choices` what is true of
//! booleans and of one look or another. What all this needs of expressions stands in one place (`Expressions`): the
//! steps and laws of the kinds of their forms and of a statement, and that an expression is printed where their own
//! parts are.
#![tactic(auto)]
