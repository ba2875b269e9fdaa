// Laws of what workers and the ticker do with a pass.
ghost use Rattle.std.specs.Prelude.{◌≡◌, ◌≤◌, ◌++◌, List, flat_map, reverse};
ghost use Rattle.std.specs.Option.{option_to_list};
ghost use Rattle.arc_serving.specs.declared.side.Side.{Side};
ghost use Rattle.centre_rules.specs.History.{Entry};
ghost use Rattle.centre_rules.specs.Summary.{Summary};
ghost use Rattle.line_gate.specs.Passes.{PassSeen, IsPass, IsLater};
ghost use Rattle.arc_serving.specs.Served.{InTurn, Served, IsServed, MakesEntries};
ghost use Rattle.arc_serving.specs.Ticks.{Ticking, IsTicked};

use line_gate::GateName;

/// Over links that are served in turn a pass keeps its number, no count of it falls, and what it makes are the entries of the sessions, in
/// order, of events of their kind alone. Over Ticks that are submitted in turn it keeps its number, too, no count of it falls, what it
/// has seen begins with what it had seen, and what it makes are their entries, in order. What stood as a pass stands as one after either.
pub fn law_one_caller<N: GateName>()
    ensures served { (side : Side) (p q : PassSeen) (served : List Served) → InTurn (IsServed side N.terms) p q served
        → (q.number ≡ p.number) × (p.count ≤ q.count) × (p.told ≤ q.told) }
    ensures made { (side : Side) (p q : PassSeen) (served : List Served) → IsPass N.terms p → InTurn (IsServed side N.terms) p q served
        → (b : Summary) (base : List Entry) → N.terms.stood b base → MakesEntries side p q (flat_map (λ s. s.entries) served) }
    ensures ticked { (p q : PassSeen) (ticks : List Ticking) → InTurn (IsTicked N.terms) p q ticks → IsLater p q }
    ensures ticks_made { (p q : PassSeen) (ticks : List Ticking) → InTurn (IsTicked N.terms) p q ticks
        → q.made ≡ reverse (flat_map (λ s. option_to_list s.entry) ticks) ++ p.made }
    ensures pass { (p q : PassSeen) → IsPass N.terms p → ((side : Side) (served : List Served) → InTurn (IsServed side N.terms) p q served → IsPass N.terms q)
        × ((ticks : List Ticking) → InTurn (IsTicked N.terms) p q ticks → IsPass N.terms q) }
{}
