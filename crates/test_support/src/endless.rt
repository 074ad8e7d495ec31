//! An endless device, for tests.
ghost use Rattle.std.specs.Prelude.{◌≡◌, ◌<◌, ◌≤◌, ◌++◌, drop, length, min, take, vec_len};

use devices::{DeviceFault, Source, fill};

/// A source that gives a text and then the same bytes over and over. It never ends and never fails.
#[derive(Drop)]
pub struct Endless {
    text: Vec<u8>,
    again: Vec<u8>,
    text_read: usize,
    // How many of the repeated bytes were read since they last began.
    again_read: usize,
    ghost in_text: { text_read ≤ vec_len text },
    ghost in_again: { again_read < vec_len again },
}

impl Endless {
    ghost use Rattle.test_support.specs.Endless.{again as bytes_again, left};

    /// The text, then these bytes repeated forever. There must be at least one.
    pub fn new(text: Vec<u8>, again: Vec<u8>) -> Endless
        requires { 0 < vec_len again }
        ensures left { left result ≡ text.items ++ again.items }
        ensures again { bytes_again result ≡ again.items }
    {
        Endless {
            text,
            again,
            text_read: 0,
            again_read: 0,
        }
    }
}

impl Source for Endless {
    ghost use Rattle.std.specs.Prelude.{IfOk, IfSome, Ok, OnErr, Some};
    ghost use Rattle.std.specs.Io.{ReadsAtMost};
    ghost use Rattle.std.specs.Io.KnownBytes.{ReadConsumes};
    ghost use Rattle.devices.specs.Devices.{Counts};
    ghost use Rattle.test_support.specs.Endless.{again, left, or_anew};

    ghost failures = { λ device. 0 };

    ghost read_count = { λ device room. Some (min room (length (left device))) };

    fn read(&mut self, into: &mut [u8]) -> Result<usize, DeviceFault>
        ensures bound { ReadsAtMost result into.new }
        ensures unchanged { OnErr result (into.new ≡ into.old) }
        ensures gives { IfOk result (λ count. IfSome (⟦<Endless as Source>⟧.read_count self.old (length into.old)) (λ reported. count ≡ reported)) }
        ensures bytes { ReadConsumes (⟦<Endless as Source>⟧.remaining self.old) (⟦<Endless as Source>⟧.remaining self.new) result into.new }
        ensures failures { Counts (⟦<Endless as Source>⟧.failures self.old) (⟦<Endless as Source>⟧.failures self.new) result }
        ensures count { result ≡ Ok (min (length into.old) (length (left self.old))) }
        ensures room { into.new ≡ take (length into.old) (left self.old) ++ drop (length (left self.old)) into.old }
        ensures left { left self.new ≡ or_anew (drop (length into.old) (left self.old)) (again self.old) }
        ensures again { again self.new ≡ again self.old }
        ensures progress { 0 < length into.old → IfOk result (λ count. 0 < count) }
    {
        let of_text = fill(into, &self.text.as_slice()[self.text_read..]);
        let of_again = fill(
            &mut into[of_text..],
            &self.again.as_slice()[self.again_read..],
        );
        self.text_read += of_text;
        self.again_read = (self.again_read + of_again) % self.again.len();
        Ok(of_text + of_again)
    }
}
