//! Counts of frames.
ghost use Rattle.std.specs.Prelude.{◌≡◌, ◌≢◌, ◌-◌, ◌<◌, ◌≤◌, ◌⊎◌, false, drop, length, IsFalse, IsTrue};
ghost use Rattle.cops_service.specs.Tallies.{after, measured, seen};

/// The tag of a refusal.
const REFUSED: u8 = 0xff;

/// Counts frames that pass, and refusals among them.
#[derive(Clone, Copy)]
pub(crate) struct Tally {
    pub(crate) frames: u64,
    pub(crate) refusals: u64,
    // The bytes of a length that have passed, and their value.
    head: u32,
    length: u32,
    // The remaining bytes of a body, and whether its first one is among them.
    left: u32,
    is_tag: bool,
}

impl Tally {
    pub(crate) fn new() -> Tally
        ensures { result ≡ record {
          frames = 0;
          refusals = 0;
          head = 0;
          length = 0;
          left = 0;
          is_tag = false;
        } }
    {
        Tally {
            frames: 0,
            refusals: 0,
            head: 0,
            length: 0,
            left: 0,
            is_tag: false,
        }
    }

    /// Counts bytes that pass.
    pub(crate) fn count(&mut self, bytes: &[u8])
        ensures { self.new ≡ after self.old bytes.now }
    {
        let mut rest = bytes;
        for _ in 0..bytes.len() {
            if rest.is_empty() {
                return;
            }
            rest = self.step(rest);
        }
    }

    /// Returns how many requests the frames answer. The first one answers the greeting, and the last one of a torn connection
    /// no request.
    pub(crate) fn requests(&self, is_torn: bool) -> u64
        ensures clean { IsFalse is_torn → result ≡ self.now.frames - 1 }
        ensures torn { IsTrue is_torn → result ≡ self.now.frames - 2 }
    {
        let others = if is_torn { 2 } else { 1 };
        self.frames.saturating_sub(others)
    }

    /// Returns how many of these requests are refused.
    pub(crate) fn refused_requests(&self, is_torn: bool) -> u64
        ensures torn { IsTrue is_torn → result ≡ self.now.refusals - 1 }
        ensures greeting { self.now.frames ≡ 1 → self.now.refusals ≡ 1 → result ≡ 0 }
        ensures clean { IsFalse is_torn → (self.now.frames ≢ 1) ⊎ (self.now.refusals ≢ 1) →
            result ≡ self.now.refusals }
    {
        let is_greeting_refused = self.frames == 1 && self.refusals == 1;
        let others = if is_torn || is_greeting_refused { 1 } else { 0 };
        self.refusals.saturating_sub(others)
    }

    // Passes a byte of a length, or the present part of a body. Returns the bytes after it.
    fn step<'b>(&mut self, bytes: &'b [u8]) -> &'b [u8]
        ensures bytes { after self.new result.now ≡ after self.old bytes.now }
        ensures less { 0 < length bytes.now → length result.now < length bytes.now }
    {
        if bytes.is_empty() {
            return bytes;
        }
        let first = bytes[0];
        if self.left == 0 {
            if self.head == 0 && bytes.len() >= 4 {
                self.take_whole_length(bytes);
                return &bytes[4..];
            }
            self.take_length(first);
            return &bytes[1..];
        }
        self.take_first(first);
        let skipped = (self.left as usize).min(bytes.len());
        self.left -= skipped as u32;
        &bytes[skipped..]
    }

    // Passes a byte of a length.
    #[inline(always)]
    fn take_length(&mut self, byte: u8)
        ensures { self.new ≡ measured byte self.old }
    {
        self.length = self.length.wrapping_mul(256).wrapping_add(u32::from(byte));
        self.head = self.head.wrapping_add(1);
        if self.head == 4 {
            self.left = self.length;
            self.is_tag = true;
            self.head = 0;
            self.length = 0;
        }
    }

    // Passes the four bytes of a length.
    #[inline(always)]
    fn take_whole_length(&mut self, bytes: &[u8])
        requires four { 4 ≤ length bytes.now }
        requires no_body { self.old.left ≡ 0 }
        requires first { self.old.head ≡ 0 }
        ensures { after self.new (drop 4 bytes.now) ≡ after self.old bytes.now }
    {
        self.take_length(bytes[0]);
        self.take_length(bytes[1]);
        self.take_length(bytes[2]);
        self.take_length(bytes[3]);
    }

    // Passes a byte of a body, but for counting it as passed.
    fn take_first(&mut self, byte: u8)
        ensures { self.new ≡ seen byte self.old }
    {
        if !self.is_tag {
            return;
        }
        self.is_tag = false;
        self.frames = self.frames.saturating_add(1);
        if byte == REFUSED {
            self.refusals = self.refusals.saturating_add(1);
        }
    }
}
