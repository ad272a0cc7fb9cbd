ghost use Rattle.std.specs.Prelude.{◌≡◌, ◌<◌, drop, length, take};
ghost use Rattle.parwindow.specs.Ahead.{window_bytes, stream_of};

/// A stream: the bytes of a full window, in two parts, and those that come next.
#[derive(Clone, Copy, Drop)]
pub struct Stream<'a> {
    pub front: &'a [u8],
    pub back: &'a [u8],
    pub bytes: &'a [u8],
}

impl<'a> Stream<'a> {
    /// Returns the bytes from an offset of the stream on, up to the end of the part that it is in.
    /// Not inlined, since a check counts in the built program how often it is called.
    #[inline(never)]
    pub fn piece_from(&self, place: usize) -> &'a [u8]
        requires { place < length (stream_of self.now) }
        ensures piece { result.now ≡ take (length result.now) (drop place (stream_of self.now)) }
        ensures some { 0 < length result.now }
    {
        if place < self.front.len() {
            return &self.front[place..];
        }
        let behind = place - self.front.len();
        if behind < self.back.len() {
            return &self.back[behind..];
        }
        &self.bytes[behind - self.back.len()..]
    }
}
