/// How far the program is with a group, or with a snapshot and its switch.
#[derive(Clone, Copy, Debug, PartialEq, Eq)]
pub enum Stage {
    /// Nothing is under way.
    Rest,
    /// The group, or the snapshot, must be written and synced.
    Writing,
    /// It was synced: the gate, or the switch, must be written.
    Written,
    /// The gate, or the switch, must be written and synced.
    Ending,
}
