// The pieces that are written, made before any disk is touched.
ghost use Rattle.std.specs.Prelude.{◌≡◌, ◌+◌, ◌^◌, ◌<◌, ◌≤◌, ◌∷◌, ◌++◌, [], length, take, drop, IfOk};
ghost use Rattle.byteorder.specs.Endian.{big_bytes};
ghost use Rattle.ge_model_journal.specs.Area.{number8};
ghost use Rattle.ge_spool.specs.Pieces.{IsRecordPiece, IsSnapshotPiece, body_in, snapshot_in};

use crate::WRITTEN_FORMAT;
use byteorder::{BigEndian, ByteOrder};
use ge_collections::Text;
use std::alloc::{AllocError, Global};

/// A record, ready to be appended: its length, its body and a closed gate, as one piece.
#[derive(Drop)]
pub struct RecordBytes {
    piece: Vec<u8>,
    ghost is_piece: { IsRecordPiece piece.items (body_in piece.items) },
}

impl RecordBytes {
    ghost use Rattle.ge_spool.specs.Bytes.{record_body};

    /// The record of a body of 1 to 2^32 - 1 bytes.
    pub fn new(alloc: Global, body: &Text) -> Result<RecordBytes, AllocError>
        requires some { 0 < length body.now }
        requires fits { length body.now < 2 ^ 32 }
        ensures { IfOk result (λ record_bytes. record_body record_bytes ≡ body.now) }
    {
        let piece = piece_of(alloc, body.bytes())?;
        Ok(RecordBytes { piece })
    }

    // What is written.
    pub(crate) fn piece(&self) -> &[u8]
        ensures is_piece { IsRecordPiece result.now (record_body self.now) }
        ensures long { length result.now ≡ 5 + length (record_body self.now) }
    {
        self.piece.as_slice()
    }
}

// The piece of a body.
fn piece_of(alloc: Global, body: &[u8]) -> Result<Vec<u8>, AllocError>
    requires some { 0 < length body.now }
    requires fits { length body.now < 2 ^ 32 }
    ensures is_piece { IfOk result (λ piece. IsRecordPiece piece.items body.now) }
    ensures body { IfOk result (λ piece. body_in piece.items ≡ body.now) }
{
    let mut field = [0; 4];
    BigEndian::write_u32(&mut field, body.len() as u32);
    let mut piece = Vec::from_slice(alloc, &field)?;
    piece.extend_from_slice(body)?;
    piece.push(0)?;
    Ok(piece)
}

/// A snapshot, ready to fill an area: the header, the snapshot and a closed gate, as one piece.
#[derive(Drop)]
pub struct SnapshotBytes {
    piece: Vec<u8>,
    ghost is_piece: { IsSnapshotPiece piece.items (number8 piece.items 1) (snapshot_in piece.items) },
}

impl SnapshotBytes {
    ghost use Rattle.ge_spool.specs.Bytes.{snapshot_of, header_generation};

    /// The bytes of a snapshot, in generation 1 until it is written in another one.
    pub fn new(alloc: Global, snapshot: &Text) -> Result<SnapshotBytes, AllocError>
        ensures snapshot { IfOk result (λ snapshot_bytes. snapshot_of snapshot_bytes ≡ snapshot.now) }
        ensures generation { IfOk result (λ snapshot_bytes. header_generation snapshot_bytes ≡ 1) }
    {
        let piece = snapshot_piece_of(alloc, snapshot.bytes())?;
        Ok(SnapshotBytes { piece })
    }

    // Sets the generation in the header.
    pub(crate) fn set_generation(&mut self, generation: u64)
        ensures snapshot { snapshot_of self.new ≡ snapshot_of self.old }
        ensures generation { header_generation self.new ≡ generation }
    {
        let size = self.piece.len() - 18;
        put_header(self.piece.as_mut_slice(), generation, size as u64);
    }

    // What is written.
    pub(crate) fn piece(&self) -> &[u8]
        ensures is_piece { IsSnapshotPiece result.now (header_generation self.now) (snapshot_of self.now) }
        ensures long { length result.now ≡ 18 + length (snapshot_of self.now) }
    {
        self.piece.as_slice()
    }
}

// Writes the format, a generation and the size of a snapshot.
fn put_header(piece: &mut [u8], generation: u64, size: u64)
    requires { 17 ≤ length piece.old }
    ensures { piece.new ≡ (2 ∷ (big_bytes 8 generation ++ big_bytes 8 size)) ++ drop 17 piece.old }
{
    piece[0] = WRITTEN_FORMAT;
    BigEndian::write_u64(&mut piece[1..], generation);
    BigEndian::write_u64(&mut piece[9..], size);
}

// The piece of a snapshot, in generation 1.
fn snapshot_piece_of(alloc: Global, snapshot: &[u8]) -> Result<Vec<u8>, AllocError>
    ensures is_piece { IfOk result (λ piece. IsSnapshotPiece piece.items 1 snapshot.now) }
    ensures snapshot { IfOk result (λ piece. snapshot_in piece.items ≡ snapshot.now) }
{
    let mut piece = Vec::from_slice(alloc, &[0; 17])?;
    piece.extend_from_slice(snapshot)?;
    piece.push(0)?;
    put_header(piece.as_mut_slice(), 1, snapshot.len() as u64);
    Ok(piece)
}
