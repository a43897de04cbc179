/// Why a step of a node is refused.
#[derive(Clone, Copy, Debug, PartialEq, Eq)]
pub enum StepRefusal {
    /// The node does not run.
    Crashed,
}
