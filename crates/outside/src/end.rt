/// One end of the program: where its bytes come from, where they go, and its files by name.
#[derive(Drop)]
pub struct End<S, K, H> {
    pub source: S,
    pub sink: K,
    pub shelf: H,
}
