//! Reading the front of a named file.
ghost use Rattle.std.specs.Prelude.{◌≡◌, ◌-◌, ◌<◌, ◌≤◌, [], ◌∷◌, length, vec_len, IfOk};
ghost use Rattle.ports.specs.Ports.{faults_after};
ghost use Rattle.ports.specs.Taken.{with_more, with_files, TakesAtMost, TakesFiles};
ghost use Rattle.ports.specs.Reading.{ReadsFront, StartsOnce, TakesPiece, TakesFront};

use crate::ports::{Files, PortFault};
use std::alloc::{AllocError, Global};

// How many bytes are read at a time.
const PIECE: usize = 65_536;

/// Starts the file of this name and reads it to its end, or to its first `most` bytes.
///
/// On `Ok` the bytes are the front of what the name holds, of at most `most` bytes, and all after them is
/// left, if that is told. What the names hold stays. The name was started once; where memory was lacking,
/// once or not at all. Of the file at most `most` bytes are taken, and none but the answered ones where there
/// is an answer. `NoMemory` may come at any point, and how much of the file is left after a fault is open: the
/// next start begins anew. After a call that failed none follows: the count of faults rose by one.
pub fn read_front<F: Files>(
    alloc: Global,
    files: &mut F,
    name: &str,
    most: usize,
) -> Result<Vec<u8>, PortFault>
    ensures ok { IfOk result (λ bytes.
        ReadsFront (F.holds files.old) name.now most bytes.items (F.rest files.new)) }
    ensures bound { IfOk result (λ bytes. vec_len bytes ≤ most) }
    ensures holds { F.holds files.new ≡ F.holds files.old }
    ensures started { StartsOnce (F.started files.old) (F.started files.new) name.now result }
    ensures taken { IfOk result (λ bytes.
        F.taken files.new ≡ with_files (F.taken files.old) (vec_len bytes ∷ [])) }
    ensures most { TakesFiles (F.taken files.old) (F.taken files.new) most }
    ensures cause { F.faults files.new ≡ faults_after (F.faults files.old) result }
{
    let mut buffer = zeros(alloc, PIECE)?;
    files.start(name)?;
    read_rest(alloc, files, &mut buffer, most)
}

// So many zeros.
fn zeros(alloc: Global, count: usize) -> Result<Vec<u8>, AllocError>
    ensures { IfOk result (λ bytes. vec_len bytes ≡ count) }
{
    vec![in alloc; 0; count]
}

// Reads the started file to its end, or to its first `most` bytes.
fn read_rest<F: Files>(
    alloc: Global,
    files: &mut F,
    buffer: &mut [u8],
    most: usize,
) -> Result<Vec<u8>, PortFault>
    requires { 0 < length buffer.old }
    ensures front { IfOk result (λ bytes.
        TakesFront (F.rest files.old) (F.rest files.new) most bytes.items) }
    ensures holds { F.holds files.new ≡ F.holds files.old }
    ensures started { F.started files.new ≡ F.started files.old }
    ensures taken { IfOk result (λ bytes.
        F.taken files.new ≡ with_more (F.taken files.old) (vec_len bytes)) }
    ensures most { TakesAtMost (F.taken files.old) (F.taken files.new) most }
    ensures cause { F.faults files.new ≡ faults_after (F.faults files.old) result }
{
    let mut bytes = Vec::new(alloc);
    let mut more = true;
    while more && bytes.len() < most {
        more = read_piece(files, buffer, most, &mut bytes)?;
    }
    Ok(bytes)
}

// Reads one more piece, as far as the buffer and `most` have room, and answers whether any byte came.
fn read_piece<F: Files>(
    files: &mut F,
    buffer: &mut [u8],
    most: usize,
    bytes: &mut Vec<u8>,
) -> Result<bool, PortFault>
    requires room { 0 < length buffer.old }
    requires below { vec_len bytes.old < most }
    ensures piece { IfOk result (λ more.
        TakesPiece (F.rest files.old) (F.rest files.new) bytes.old.items bytes.new.items more) }
    ensures bound { IfOk result (λ _. vec_len bytes.new ≤ most) }
    ensures holds { F.holds files.new ≡ F.holds files.old }
    ensures started { F.started files.new ≡ F.started files.old }
    ensures longer { IfOk result (λ _. vec_len bytes.old ≤ vec_len bytes.new) }
    ensures taken { IfOk result (λ _.
        F.taken files.new ≡ with_more (F.taken files.old) (vec_len bytes.new - vec_len bytes.old)) }
    ensures most { TakesAtMost (F.taken files.old) (F.taken files.new) (most - vec_len bytes.old) }
    ensures cause { F.faults files.new ≡ faults_after (F.faults files.old) result }
{
    let room = buffer.len().min(most - bytes.len());
    let piece = &mut buffer[..room];
    let count = files.read(piece)?;
    bytes.extend_from_slice(&piece[..count])?;
    Ok(count > 0)
}
