//! A piece of output.

use child_hands::Piece;
use std::test::Fail;

#[test]
fn a_piece_is_its_bytes(rt: HostRuntime) -> Result<(), Fail> {
    let alloc = rt.alloc();
    for size in [1usize, 4096] {
        let mut bytes = Vec::new(alloc);
        bytes.resize(size, b'x')?;
        let piece = Piece::new(alloc, bytes.as_slice())?;
        let copy = piece.copied_into(Vec::with_capacity(alloc, 4096)?);
        assert_eq!(rt; copy.as_slice(), bytes.as_slice());
        assert_eq!(rt; piece.into_text().as_slice(), bytes.as_slice());
    }
    Ok(())
}
