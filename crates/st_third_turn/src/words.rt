use st_third::ThirdOutput;

/// A word of the third form, and how many outputs of the other forms came before it in the step.
#[derive(Drop)]
pub struct Word {
    pub place: usize,
    pub word: ThirdOutput,
}
