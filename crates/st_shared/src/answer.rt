use st_base::PageBytes;

/// What the report of a command is answered: a write is hard; a read has these bytes; the command
/// failed; or its client has stopped since it submitted the command, and gets no report.
#[derive(Clone, Copy)]
pub enum SharedAnswer<'a> {
    Hard,
    Read(&'a PageBytes),
    Failed,
    Silent,
}
