// A boxed stream is a stream, so that code that is generic over a stream takes it too.
use crate::stream::{Chunk, OutputStream};
use std::alloc::Global;

impl OutputStream for Box<dyn OutputStream + Send> {
    ghost parts = { λ b. (OutputStream-box b).parts b.value };

    ghost offers = { λ b. (OutputStream-box b).offers b.value };

    ghost aborts = { λ b. (OutputStream-box b).aborts b.value };

    ghost stream_faults = { λ b. (OutputStream-box b).stream_faults b.value };

    ghost chunk_bytes = { λ b. (OutputStream-box b).chunk_bytes b.value };

    fn chunk_size(&self) -> u32 {
        (**self).chunk_size()
    }

    fn write_chunk(&mut self, alloc: Global, chunk: &[u8]) -> Chunk {
        (**self).write_chunk(alloc, chunk)
    }

    fn end_of_stream(&mut self) {
        (**self).end_of_stream()
    }
}
