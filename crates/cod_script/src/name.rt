//! A name of a segment or of a client.
ghost use Rattle.std.specs.Prelude.{◌≡◌, IfOk, true};
ghost use Rattle.cod_words.specs.Words.{is_name};

use cod_types::OutOfMemory;
use std::alloc::Global;
use std::marker::Model;
use std::str;

/// A name, seen as its bytes.
#[derive(Drop)]
pub struct Name {
    text: String,
}

impl Model for Name {
    ghost use Rattle.std.specs.Prelude.{List, ℕ, string_bytes};

    ghost Value = { List ℕ };

    ghost view = { λ n. string_bytes n.text };
}

impl Name {
    /// The name of these bytes.
    pub fn copy(alloc: Global, word: &[u8]) -> Result<Name, OutOfMemory>
        requires { is_name word.now ≡ true }
        ensures { IfOk result (λ n. n ≡ word.now) }
    {
        let Ok(text) = str::from_utf8(word) else {
            unreachable!()
        };
        Ok(Name {
            text: String::from_str(alloc, text)?,
        })
    }

    pub fn as_str(&self) -> &str
        ensures { result.now ≡ self.now }
    {
        self.text.as_str()
    }
}
