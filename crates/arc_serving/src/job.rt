// A job: what one worker is given, and what is left of it.
use crate::working::Worked;
use arc_doors::Door;
use line_gate::{GateName, Pass};
use std::marker::Model;

/// A worker's job: its door, its pass, and what came of the worker once it ended.
#[derive(Drop)]
pub(crate) struct Job<A: Door + Drop, N: GateName> {
    pub(crate) door: A,
    pub(crate) pass: Option<Pass<N>>,
    pub(crate) worked: Option<Worked>,
}

impl<A: Door + Drop, N: GateName> Model for Job<A, N> {
    ghost use Rattle.arc_serving.specs.Jobs.{JobSeen};

    ghost Value = { JobSeen };

    ghost view = { λ j. record { door = A.seen j.door; pass = j.pass; worked = j.worked } };
}
