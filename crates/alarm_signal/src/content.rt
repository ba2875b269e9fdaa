// The content of a message.
ghost use Rattle.std.specs.Prelude.{◌≡◌, ◌==◌, position};
ghost use Rattle.std.specs.List.{before_first};

/// The data of a message's content: what stands before its first `]`, or all where there is none. The further blocks of a
/// message follow that `]` (DC-09, the message's data).
pub fn data_of(content: &[u8]) -> &[u8]
    ensures { result.now ≡ before_first (λ b. b == 93) content.now }
{
    match first_bracket(content) {
        Some(end) => &content[..end],
        None => content,
    }
}

// Where the first `]` stands.
fn first_bracket(content: &[u8]) -> Option<usize>
    ensures { result ≡ position (λ b. b == 93) content.now }
{
    content.iter().position(|byte| *byte == b']')
}
