//! What becomes of a process that faulted.
#![tactic(auto)]

ghost use Rattle.std.specs.Prelude.{◌≡◌};
ghost use Rattle.fault_policy.specs.Policy.{decision};

/// Which processes are restarted when they fault, as the fault policies of Tock's kernel.
#[derive(Clone, Copy, Debug, PartialEq, Eq)]
pub enum Policy {
    /// None.
    Stop,
    /// All.
    Restart,
    /// Those that had fewer restarts than this. A restart that the process asked for by exit counts.
    Threshold(u32),
}

/// What becomes of a process that faulted.
#[derive(Clone, Copy, Debug, PartialEq, Eq)]
pub enum Action {
    /// It has ended.
    Stop,
    /// It begins again.
    Restart,
}

/// What a policy decides for a process that faulted after so many restarts.
pub fn decide(policy: Policy, restarts: u32) -> Action
    ensures { result ≡ decision policy restarts }
{
    match policy {
        Policy::Stop => Action::Stop,
        Policy::Restart => Action::Restart,
        Policy::Threshold(most) if restarts < most => Action::Restart,
        Policy::Threshold(_) => Action::Stop,
    }
}
