//! Laws of flat designs: that of a source without faults is sound, and its names stand for signals of the declared kind, width and sign.
//!
//! Proved: of the definitions of flat designs (`laws_laws.rt`): where declarations have no fault, the number of each name of an instance is
//! the place of its signal in the flat design, which is called by the instance's path and the name, and an instance has as many signals as
//! its size says; the number of each function's name is the place of its function; where each name has a byte at least, a flat design has
//! no more than 128 levels of instances.
//!
//! Defined: names that are used as what they are, and what they stand for in an instance and in its design.
//!
//! Defined: what an elaboration of a source is: the first fault of its names, or else its flat design or the first fault of that
//! (`IsElaboration`).
//!
//! Proved: where uses of names have no fault, each name in each module is used as what it is (`named_laws.rt`).
//!
//! Proved: the first fault of a flat design is the same, however many signals and functions its modules are said to have (`alike_laws.rt`).
//!
//! Proved: in each instance of a source whose declarations have no fault the names of its module, and of each function in it, stand for
//! what they are; where uses have none either, their numbers stand in the flat design for signals of 1 to 128 bits of the kind, width and
//! sign that the declarations say, and for functions with as many inputs (`agree_laws.rt`).
//!
//! Proved: what is used as what it is has the width and the sign by which it is judged, and is sound where it has no fault; so is the flat
//! design of a source whose names have no fault, and no input of a function in it is a loop variable; the parameters of each instance have
//! from 1 to 128 bits (`laws.rt`).
#![tactic(auto)]

pub mod agree_laws;
pub mod alike_laws;
pub mod laws;
pub mod laws_laws;
pub mod named_laws;
