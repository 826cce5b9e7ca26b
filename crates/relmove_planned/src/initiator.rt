//! What begins a run of a plan.
ghost use Rattle.std.specs.Prelude.{◌≡◌, ◌<◌, IsTrue, OnErr, OnOk, map, string_bytes};
ghost use Rattle.relmove_stages.specs.States.{IsOneCall};

use relmove_actions::NewText;
use relmove_stages::Initiator;

/// What begins a run of a plan: it is given the plan's new texts first.
pub trait PlanInitiator: Initiator {
    /// Takes the new texts that it writes. Changes nothing of the tree.
    fn set_texts(&mut self, new_texts: Vec<NewText>) -> Result<(), Self::Fault>
        // these are the new texts
        ensures texts { OnOk result (IsTrue (Self.state self.new).is_clean
            → Self.texts self.new ≡ map (λ new. string_bytes new.text) new_texts.items) }
        // the tree and the journal stay
        ensures same { IsTrue (Self.state self.new).is_clean → (Self.state self.new).disk ≡ (Self.state self.old).disk }
        // what a crash leaves
        ensures crash { IsOneCall (Self.state self.old) (Self.state self.new) }
        // it fails only if a call failed
        ensures cause { OnErr result (IsTrue (Self.state self.new).is_clean
            → (Self.state self.old).faults < (Self.state self.new).faults) };
}
