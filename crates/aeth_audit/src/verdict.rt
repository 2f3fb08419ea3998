// What an audit answers.

/// What the audit of a log says.
#[derive(Clone, Copy)]
pub enum Audit {
    /// No row breaks a rule.
    Clean,
    /// The first row that breaks a rule, counted from 1, and the least rule that it breaks: 1 where
    /// its link isn't reserved in its cycle, 2 where its flit is none of the channel for which the
    /// link is reserved, 3 where the flit doesn't come from the link before or go on to the link
    /// after.
    Fault { rule: u8, row: u32 },
}
