// The name of a gate.
use std::marker::Brand;

/// Names one gate. Whatever has one name belongs to one gate: the gate itself, its passes, and what lies under its lock, which could not
/// speak of what stands beside the lock otherwise. The function that makes the gate is called with `Brand`, and its caller picks the
/// member.
pub trait GateName {
    ghost use Rattle.line_gate.specs.Terms.{Terms};

    ghost terms: { Terms };
}

impl GateName for Brand {
    ghost use Rattle.line_gate.specs.Terms.{no_terms};

    ghost terms = { no_terms };
}
