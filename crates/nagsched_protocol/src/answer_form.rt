//! The form of answers.

/// The form in which a conversation answers its lines.
#[derive(Clone, Copy, Debug, PartialEq, Eq)]
pub enum AnswerForm {
    /// Words with a space between them. The name of an object is the last of them.
    Words,
    /// The same words. After a refusal, a second line explains it.
    Explained,
    /// One JSON object on a line, whose members are the answer's fields. It repeats the id of its request.
    Json,
}
