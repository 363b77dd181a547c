// A text of bounded length, to which bytes and numbers are put one behind the other. What is printed is put by functions, and not by Display: `write!`
// answers a Result, and a text whose room is asked for cannot fail.
// How long a text may become differs from text to text, so the function that puts it says so in its own contract.
#![tactic(auto)]

ghost use Rattle.std.specs.Prelude.{◌≡◌, ℕ, ◌+◌, ◌≤◌, ◌==◌, List, [], ◌++◌, length};
ghost use Rattle.numbers.specs.Numbers.{decimal_of, labelled};

use arrayvec::ArrayVec;
use itoa::Buffer;
use std::marker::Model;

/// A text of at most `N` bytes. A clause sees the bytes put so far. The kit's vector answers an error where it is full; here a clause asks for the room.
#[derive(Drop)]
pub struct Text<const N: usize> {
    bytes: ArrayVec<u8, N>,
}

impl<const N: usize> Model for Text<N> {
    ghost Value = { List ℕ };

    ghost view = { λ t. t.bytes.items };
}

impl<const N: usize> Text<N> {
    /// An empty text.
    pub fn new() -> Self
        ensures { result ≡ [] }
    {
        Text {
            bytes: ArrayVec::new(),
        }
    }

    /// How many bytes were put.
    pub fn len(&self) -> usize
        ensures bytes { result ≡ length self.now }
        ensures fits { result ≤ N }
    {
        self.bytes.len()
    }

    /// Whether nothing was put.
    pub fn is_empty(&self) -> bool
        ensures { result ≡ (length self.now == 0) }
    {
        self.bytes.is_empty()
    }

    /// The bytes that were put.
    pub fn as_bytes(&self) -> &[u8]
        ensures { result.now ≡ self.now }
    {
        self.bytes.as_slice()
    }

    /// Starts again with nothing.
    pub fn clear(&mut self)
        ensures { self.new ≡ [] }
    {
        self.bytes.clear();
    }

    /// Puts bytes behind the others.
    pub fn put(&mut self, text: &[u8])
        requires { length self.old + length text.now ≤ N }
        ensures bytes { self.new ≡ self.old ++ text.now }
        ensures len { length self.new ≡ length self.old + length text.now }
    {
        // It is not refused, since there is room.
        let _ = self.bytes.try_extend_from_slice(text);
    }

    /// Puts the digits of a number.
    #[tactic(auto, using(numbers::proofs::Decimal::decimal_printed))]
    pub fn put_number(&mut self, n: u64)
        requires { length self.old + 20 ≤ N }
        ensures bytes { self.new ≡ self.old ++ decimal_of n }
        ensures len { length self.new ≤ length self.old + 20 }
    {
        self.put(Buffer::new().format(n).as_bytes());
    }

    /// Puts a label and a number behind it.
    #[tactic(auto, unfolding(numbers::specs::Numbers::labelled))]
    pub fn put_labelled(&mut self, label: &[u8], n: u64)
        requires { length self.old + length label.now + 20 ≤ N }
        ensures bytes { self.new ≡ self.old ++ labelled label.now n }
        ensures len { length self.new ≤ length self.old + length label.now + 20 }
    {
        self.put(label);
        self.put_number(n);
    }
}
