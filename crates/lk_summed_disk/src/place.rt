// How the files of a device go on.
ghost use Rattle.std.specs.Prelude.{◌≡◌, ◌+◌, true, IfSome};
ghost use Rattle.lk_disk.specs.Disk.{other};
ghost use Rattle.lk_summed_disk.specs.Places.{is_summed, place_at};

use lk_disk::Side;

/// How a file goes on.
#[derive(Clone, Copy)]
pub enum Form {
    /// It is empty.
    Empty,
    /// Without sums.
    Plain,
    /// By frames, after this chain.
    Summed([u8; 32]),
}

/// What is known of the bytes of a file.
#[derive(Clone, Copy)]
pub struct Place {
    pub form: Form,
    // how many bytes of the device below are whole frames
    pub end: usize,
    // how many bytes of text they hold
    pub size: usize,
    // nothing follows them
    pub is_whole: bool,
}

impl Place {
    /// The place of an empty file.
    pub const EMPTY: Place = Place {
        form: Form::Empty,
        end: 0,
        size: 0,
        is_whole: true,
    };

    /// Whether its file has sums.
    pub fn has_sums(&self) -> bool
        ensures { result ≡ is_summed self.now.form }
    {
        matches!(self.form, Form::Summed(_))
    }

    /// The place of a whole file after so many more bytes, which hold so many bytes of text.
    pub fn grown(self, form: Form, bytes: usize, text: usize) -> Option<Place>
        ensures { IfSome result (λ p. p ≡ record {
          form = form;
          end = self.end + bytes;
          size = self.size + text;
          is_whole = true;
        }) }
    {
        Some(Place {
            form,
            end: self.end.checked_add(bytes)?,
            size: self.size.checked_add(text)?,
            is_whole: true,
        })
    }

    /// The same place, after what follows it was cut off.
    pub fn made_whole(self) -> Place
        ensures { result ≡ record self { is_whole = true } }
    {
        Place {
            form: self.form,
            end: self.end,
            size: self.size,
            is_whole: true,
        }
    }
}

/// What is known of both files; `None` after a call that may have left anything.
#[derive(Clone, Copy)]
pub struct Places {
    pub a: Option<Place>,
    pub b: Option<Place>,
}

impl Places {
    /// The place at a side.
    pub fn at(&self, side: Side) -> Option<Place>
        ensures { result ≡ place_at self.now side }
    {
        match side {
            Side::A => self.a,
            Side::B => self.b,
        }
    }

    /// Sets the place at a side.
    pub fn set(&mut self, side: Side, place: Option<Place>)
        ensures here { place_at self.new side ≡ place }
        ensures there { place_at self.new (other side) ≡ place_at self.old (other side) }
    {
        match side {
            Side::A => self.a = place,
            Side::B => self.b = place,
        }
    }
}
