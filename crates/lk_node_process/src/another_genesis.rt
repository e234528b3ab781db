//! Writes the line with which a node ends that has followed a node of another genesis.

ghost use Rattle.std.specs.Prelude.{◌≡◌};

use lk_probe::DIGEST;
use lk_probe::neighbours::Origin;
use lk_program_fault::ProgramFault;
use std::io;
use std::io::Write;

// Writes a node and the digest of its genesis in hex.
fn write_origin<E: Write>(origin: &Origin, err: &mut E) -> io::Result<()> {
    let mut digits = [0; 2 * DIGEST];
    let _ = hex::encode_to_slice(&origin.genesis, &mut digits);
    write!(err, "node {} of genesis ", origin.node.get())?;
    err.write_all(&digits)
}

// Writes the line: `another genesis: node N of genesis HEX was led by node M of genesis HEX`.
fn write_line<E: Write>(own_origin: &Origin, leader: &Origin, err: &mut E) -> io::Result<()> {
    err.write_all(b"another genesis: ")?;
    write_origin(own_origin, err)?;
    err.write_all(b" was led by ")?;
    write_origin(leader, err)?;
    err.write_all(b"\n")
}

/// Writes that a node was led by one of another genesis, and returns `OtherGenesis`. A failed write is ignored.
pub fn write_other_genesis<E: Write>(
    own_origin: &Origin,
    leader: &Origin,
    err: &mut E,
) -> ProgramFault
    ensures { result ≡ ProgramFault.OtherGenesis }
{
    let _ = write_line(own_origin, leader, err);
    ProgramFault::OtherGenesis
}
