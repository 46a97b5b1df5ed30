use std::process::Abort;

/// What a stream has to hold.
#[derive(Clone, Copy)]
pub enum Wanted {
    /// Just this text.
    Text(&'static str),
    /// A text with this part.
    Part(&'static str),
    /// 512 bytes that begin with these.
    Page(&'static [u8]),
}

impl Wanted {
    /// Compares with what was found at a line of a table.
    pub fn meets(self, rt: &impl Abort, line: &str, found: &[u8]) {
        match self {
            Wanted::Text(text) => assert_eq!(rt; found, text.as_bytes(), "{line}"),
            Wanted::Part(text) => {
                let has = found
                    .windows(text.len().max(1))
                    .any(|part| part == text.as_bytes());
                assert!(rt; has, "{line}");
            }
            Wanted::Page(first) => assert!(rt;
                found.len() == 512 && found.starts_with(first),
                "{line}"
            ),
        }
    }
}
