//! An index over pages as a library, beside the plain slow program.

mod asked;
mod changes;
mod check;
mod plain;
mod reader;
mod reads;
mod sessions;
mod shelf;
mod shop;
mod steps;
mod stop;
mod told;
