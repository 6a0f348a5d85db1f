//! The list of devices.

ghost use Rattle.std.specs.Prelude.{◌≡◌, ◌+◌, ◌==◌, ◌≤◌, IfOk, OnOk, MatchResult};
ghost use Rattle.std.specs.Prelude.{[], Some, None, length, map};
ghost use Rattle.std.specs.List.{slice_split};
ghost use Rattle.std.specs.Option.{option_map};
ghost use Rattle.kat_words.specs.Jobs.{Gives, devices_given};
ghost use Rattle.kat_words.specs.Limits.{most_devices};
ghost use Rattle.kat_words.specs.Numbers.{device_of, devices_of, with_devices, with_new};

use crate::asked::WordsError;
use crate::limits::{MOST_DEVICE, MOST_DEVICES};
use crate::numbers::number_within;
use std::alloc::{AllocError, Global};
use std::marker::Model;

/// The numbers of devices, in the order of naming. Contracts see the list of them.
#[derive(Debug, Drop)]
pub struct Devices {
    inner: Vec<u32>,
}

impl Model for Devices {
    ghost use Rattle.std.specs.Prelude.{List, ℕ};

    ghost Value = { List ℕ };

    ghost view = { λ d. d.inner.items };
}

impl Devices {
    /// Takes the list over; no memory is taken.
    pub fn new(inner: Vec<u32>) -> Devices
        ensures { result ≡ inner.items }
    {
        Devices { inner }
    }

    /// Lends the list.
    pub fn as_slice(&self) -> &[u32]
        ensures { result.now ≡ self.now }
    {
        self.inner.as_slice()
    }

    /// Gives the list back; no memory is taken.
    pub fn into_vec(self) -> Vec<u32>
        ensures { result.items ≡ self }
    {
        self.inner
    }

    /// The devices of the option's word; none where it was not given.
    pub(crate) fn given(alloc: Global, word: Option<&str>) -> Result<Devices, WordsError>
        ensures given { Gives (devices_given (option_map (λ s. s.now) word.entry)) result }
        ensures few { IfOk result (λ d. length d ≤ most_devices) }
    {
        match word {
            Some(word) => Devices::of_list(alloc, word),
            None => Ok(Devices::new(Vec::new(alloc))),
        }
    }

    /// The devices that a text names between its commas.
    fn of_list(alloc: Global, word: &str) -> Result<Devices, WordsError>
        ensures given { Gives (devices_of word.now) result }
        ensures few { IfOk result (λ d. length d ≤ most_devices) }
    {
        let parts = parts_of(alloc, word)?;
        if parts.len() > MOST_DEVICES {
            return Err(WordsError::Usage);
        }
        let mut devices = Devices::new(Vec::new(alloc));
        for part in parts.as_slice() {
            devices.push_new(part)?;
        }
        Ok(devices)
    }

    /// Adds the number of a word, if it is one and new.
    fn push_new(&mut self, word: &str) -> Result<(), WordsError>
        ensures added { MatchResult result
            (λ _. with_new self.old (device_of word.now) ≡ Some self.new)
            (λ e. e ≡ WordsError.Usage → with_new self.old (device_of word.now) ≡ None) }
        ensures longer { OnOk result (length self.new ≡ length self.old + 1) }
    {
        let Some(number) = number_within(0, MOST_DEVICE, word) else {
            return Err(WordsError::Usage);
        };
        let number = number as u32;
        if self.inner.contains(&number) {
            return Err(WordsError::Usage);
        }
        self.inner.push(number)?;
        Ok(())
    }
}

/// The parts of a text between its commas.
fn parts_of(alloc: Global, word: &str) -> Result<Vec<&str>, AllocError>
    ensures { IfOk result (λ v. map (λ x. x.now) v.items ≡ slice_split (λ b. b == 44) word.now) }
{
    word.split(',').collect(alloc)
}
