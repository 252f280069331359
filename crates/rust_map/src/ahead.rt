//! The span of a text before the text is put in.

ghost use Rattle.rust_map.specs.Sources.{next_position};
ghost use Rattle.rust_map.specs.Spans.{span_from};
ghost use Rattle.std.specs.Prelude.{◌≡◌, ◌+◌, ◌<◌, ◌^◌, ◌↔◌, IfOk, IsOk};

use crate::source_map::{MapFull, SourceMap};
use crate::span::Span;

impl SourceMap {
    /// The span of all of a text of so many characters, if it is the next that is put in. Until then it
    /// lies in no text of the map.
    ///
    /// An error says, as that of `room`, that the map has no positions left for it.
    pub fn span_ahead(&self, characters: usize) -> Result<Span, MapFull>
        ensures fits { IsOk result ↔ (next_position self.now + characters < 2 ^ 32) }
        ensures span { IfOk result
            (λ span. span ≡ span_from (next_position self.now) (next_position self.now + characters)) }
    {
        match self.room(characters) {
            Ok(start) => Ok(Span {
                start,
                end: start + characters as u32,
            }),
            Err(full) => Err(full),
        }
    }
}
