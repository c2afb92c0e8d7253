//! The results of the comparisons, hashes and clones that `derive` generates. Each function here
//! calls one generated function, or two, and its contract states the result. Nothing calls the
//! functions of this module.
mod clones;
mod equality;
mod hash;
mod order;
mod partial_order;
