// What document 01 fixes once and for all, as the code needs it: limits, refusal numbers, and what is said of a type and of a group. Each stands here once,
// and is promised, or proved where it is used, against its one definition. (Texts, the codes that an image is read by and the lengths of the arrays in
// `model` stand where docs/DECISIONS.md says, since they cannot stand here.)
#![tactic(auto)]

pub mod limits; // limits.rt: how many, how long, how far
pub mod refusals; // refusals.rt: why a call or a line is refused, and the number of each reason
pub mod kinds; // kinds.rt: what is said of a type
pub mod groups; // groups.rt: what is said of a group
pub mod halves; // halves.rt: the place of the enabled operating system, and the halves of a pair
pub mod names; // names.rt: the empty name
