// A cursor's openings, its position, and its slice.
ghost use Rattle.std.specs.Prelude.{◌≡◌, length, take, drop};
ghost use Rattle.cursors.specs.Cursors.{OpenedAt, Sought, at, room_of};

use super::Cursor;
use backends::fault::SeekError;
use backends::traits::{Pos, Seek};
use words::Word;

impl<'a, W: Word> Cursor<'a, W> {
    // With all slots free for writing.
    pub fn new_at_write_beginning(buf: &'a mut [W]) -> Cursor<'a, W>
        ensures { OpenedAt buf.entry.ghost_name buf.old 0 result }
    {
        Cursor::new_at_pos(buf, 0)
    }

    // With all slots written.
    pub fn new_at_write_end(buf: &'a mut [W]) -> Cursor<'a, W>
        ensures { OpenedAt buf.entry.ghost_name buf.old (length buf.old) result }
    {
        let end = buf.len();
        Cursor::new_at_pos(buf, end)
    }

    // The words before the position.
    pub fn written(&self) -> &[W]
        ensures { result.now ≡ take (at self.now) self.now.buf.now }
    {
        &self.buf[..self.place()]
    }

    // The words from the position on.
    pub fn unwritten(&self) -> &[W]
        ensures { result.now ≡ drop (at self.now) self.now.buf.now }
    {
        &self.buf[self.place()..]
    }

    // The slice and the position. (Each store that gives its slice back says so: they share no type.)
    pub fn into_buf_and_pos(self) -> (&'a mut [W], usize)
        ensures lent { result.0.ghost_name ≡ self.entry.buf.ghost_name }
        ensures slots { result.0.now ≡ self.entry.buf.now }
        ensures pos { result.1 ≡ self.entry.pos }
    {
        (self.buf, self.pos)
    }
}

impl<'a, W: Word> Pos for Cursor<'a, W> {
    ghost stands = { λ c. at c };

    ghost ends = { λ c. room_of c };

    fn pos(&self) -> usize {
        self.place()
    }
}

impl<'a, W: Word> Seek for Cursor<'a, W> {
    ghost seeks = { Sought };

    fn seek(&mut self, pos: usize) -> Result<(), SeekError> {
        if pos > self.room() {
            return Err(SeekError::PastEnd);
        }
        self.pos = pos;
        Ok(())
    }
}
