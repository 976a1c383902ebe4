//! A law of the definitions, as a function with an empty body.

ghost use Rattle.std.specs.Prelude.{◌≡◌, ◌↔◌, None};
ghost use Rattle.hp_trace.specs.Nest.{fault_of, CanStand};
ghost use Rattle.hp_trace.specs.declared.nest.Nest.{Nest as ANest};
ghost use Rattle.hp_trace.specs.declared.event.Event.{Event as AnEvent};

/// An event has no fault exactly where it can stand behind what is open.
pub fn faults_are_exact()
    ensures { (s : ANest) (e : AnEvent) → (fault_of s e ≡ None) ↔ CanStand s e }
{}
