// The work buffers that a search is lent: rows of floats and rows of words, a place each, and the queue.
#[derive(Drop)]
pub struct Buffers<'a> {
    pub floats: &'a mut [f32],
    pub words: &'a mut [u32],
    pub queue: &'a mut [u32],
}
