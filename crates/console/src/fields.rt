// The fields of a line, one after the other.
ghost use Rattle.std.specs.Prelude.{◌≡◌, length, take};
ghost use Rattle.script.specs.Digits.{bytes_in};
ghost use Rattle.script.specs.Fields.{field_of, rest_of};

// What is left of a line.
#[derive(Clone, Copy)]
pub struct Fields<'a> {
    pub left: &'a [u8],
}

impl<'a> Fields<'a> {
    // Takes the next field, without its bar; an empty one where none is left.
    pub fn next(&mut self) -> &'a [u8]
        ensures answers { result.now ≡ field_of self.old.left.now }
        ensures leaves { self.new.left.now ≡ rest_of self.old.left.now }
    {
        let s = self.left;
        let field = script::field(s);
        self.left = s.get(field.len() + 1..).unwrap_or(&[]);
        field
    }
}

// Bytes of two digits each, as script::bytes reads them: the part of the buffer that has them.
pub fn bytes<'b>(s: &[u8], space: &'b mut [u8]) -> &'b [u8]
    ensures answers { result.now ≡ take (length space.old) (bytes_in s.now) }
{
    let n = script::bytes(s, space);
    &space[..n]
}
