use description::source::Source;

/// A call of a session, with its arguments.
#[derive(Drop)]
pub enum Request<'a> {
    /// A circuit file, an assumption and a property.
    Load(Source<'a>),
    Advance,
    Verdict,
    /// Two arrays, of which the call writes the starts.
    Trace {
        states: &'a mut [u16],
        inputs: &'a mut [u16],
    },
    /// A state number.
    Inside(u16),
}
