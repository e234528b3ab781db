use crate::header::Header;
use crate::standing::Standing;
use std::marker::Model;

/// The first entry of a file: whose store it is, and the standing when the file was begun. The file with the greater
/// generation is the newer one. The format is 1 or 2.
#[derive(Drop)]
pub struct Base {
    pub generation: u64,
    pub format: u8,
    pub header: Header,
    pub standing: Standing,
}

impl Model for Base {
    ghost use Rattle.lk_store_format.specs.Values.{BaseValue};

    ghost Value = { BaseValue };

    ghost view = { λ b. record {
      generation = b.generation;
      format = b.format;
      header = b.header;
      standing = b.standing;
    } };
}
