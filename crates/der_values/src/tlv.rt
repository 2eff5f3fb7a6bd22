ghost use Rattle.std.specs.Prelude.{◌≡◌, IfSome};
ghost use Rattle.std.specs.Option.{option_map};
ghost use Rattle.der_values.specs.Input.{Item};
ghost use Rattle.der_values.specs.Value.{value};
ghost use Rattle.der_values.specs.Next.{contents, seen, IsValue};

use crate::reader::Reader;

/// A value: its identifier octet, the place of that octet, its contents and all of its bytes.
#[derive(Clone, Copy, Debug)]
pub struct Tlv<'a> {
    pub tag: u8,
    pub place: u64,
    pub content: &'a [u8],
    pub whole: &'a [u8],
}

impl<'a> Tlv<'a> {
    /// A reader of the contents, which counts places on from those of the value.
    #[tactic(auto, using(crate::proofs::Values::content_le_whole), unfolding(crate::specs::Next::contents))]
    pub fn contents(&self) -> Reader<'a>
        requires { IsValue self.now }
        ensures { result ≡ contents (seen self.now) }
    {
        let header = self.whole.len() - self.content.len();
        Reader::new(self.content, self.place + header as u64)
    }
}

/// The contents of a value, where there is one.
pub fn content_of<'a>(t: Option<Tlv<'a>>) -> Option<&'a [u8]>
    ensures { option_map (λ b. b.now) result ≡ option_map (λ (v : Item). v.content) (option_map seen t.entry) }
{
    match t {
        Some(t) => Some(t.content),
        None => None,
    }
}

/// All bytes of a value, where there is one.
pub fn whole_of<'a>(t: Option<Tlv<'a>>) -> Option<&'a [u8]>
    requires { IfSome t IsValue }
    ensures { option_map (λ b. b.now) result ≡ option_map (λ (v : Item). value v.tag v.content) (option_map seen t.entry) }
{
    match t {
        Some(t) => Some(t.whole),
        None => None,
    }
}
