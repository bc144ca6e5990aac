// A text that is written token by token.
ghost use Rattle.std.specs.Prelude.{◌≡◌, [], ◌∷◌, ◌++◌, false, IfOk};
ghost use Rattle.std.specs.Result.{IsOk};
ghost use Rattle.json.specs.Print.{print, IsPrintable};
ghost use Rattle.json.specs.Reads.{token_of};
ghost use Rattle.json.specs.Token.{begin_array, end_array};
ghost use Rattle.document_shapes.specs.Added.{AddsTokens};

use json::{Token, Writer};
use std::alloc::{AllocError, Global};

/// A text of JSON. Where there is no memory for one of its tokens, that is noted, and there is no text in the end.
#[derive(Drop)]
pub(crate) struct TokenText {
    pub writer: Writer,
    pub is_out_of_memory: bool,
}

impl TokenText {
    pub(crate) fn new(alloc: Global) -> TokenText
        ensures before { result.writer.before ≡ [] }
        ensures tokens { result.writer.tokens ≡ [] }
    {
        TokenText {
            writer: Writer::new(Vec::new(alloc)),
            is_out_of_memory: false,
        }
    }

    /// Notes whether there was memory for what was to be written.
    pub(crate) fn note(&mut self, written: Result<(), AllocError>)
        ensures writer { self.new.writer ≡ self.old.writer }
        ensures before { self.new.is_out_of_memory ≡ false → self.old.is_out_of_memory ≡ false }
        ensures now { self.new.is_out_of_memory ≡ false → IsOk written }
    {
        if written.is_err() {
            self.is_out_of_memory = true;
        }
    }

    /// Adds a token.
    pub(crate) fn token(&mut self, token: Token<'_>)
        requires { IsPrintable (token_of token) }
        ensures { AddsTokens (token_of token.entry ∷ []) self.old self.new }
    {
        let written = self.writer.token(token);
        self.note(written);
    }

    /// Begins a list.
    pub(crate) fn begin_array(&mut self)
        ensures { AddsTokens (begin_array ∷ []) self.old self.new }
    {
        let written = self.writer.begin_array();
        self.note(written);
    }

    /// Ends a list.
    pub(crate) fn end_array(&mut self)
        ensures { AddsTokens (end_array ∷ []) self.old self.new }
    {
        let written = self.writer.end_array();
        self.note(written);
    }

    /// The text, if there was memory for all of it.
    pub(crate) fn into_bytes(self) -> Result<Vec<u8>, AllocError>
        ensures whole { IfOk result (λ _. self.is_out_of_memory ≡ false) }
        ensures text { IfOk result (λ b. b.items ≡ self.writer.before ++ print self.writer.tokens) }
    {
        if self.is_out_of_memory {
            Err(AllocError)
        } else {
            Ok(self.writer.into_inner())
        }
    }
}
