//! Laws of definitions. Each function does nothing: its contract is the law.
ghost use Rattle.out_stream.specs.CutLaws.{ChunksAreNotEmpty, ChunksAreWhole, ChunksFit, CutsAddUp};

/// For each size of at least 1, bytes are cut into chunks of that size, of which the last may be
/// shorter and none is empty.
pub fn chunks_have_one_size()
    ensures all_bytes { CutsAddUp }
    ensures whole { ChunksAreWhole }
    ensures not_empty { ChunksAreNotEmpty }
    ensures fits { ChunksFit }
{}
