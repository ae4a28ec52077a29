//! A message that is stored in a mailbox.

ghost use Rattle.std.specs.Prelude.{◌≡◌, IfOk};

use std::marker::Model;
use vx_base::{Body, Id, NoMemory};

/// A message, by the id of its write. Contracts see the plain `Stored`.
#[derive(Drop)]
pub struct Message {
    id: Id,
    body: Body,
}

impl Model for Message {
    ghost use Rattle.vx_laws.specs.Boxes.{Stored};

    ghost Value = { Stored };

    ghost view = { λ m. record { id = m.id; body = m.body } };
}

// The same again.
fn copy_body(body: &Body) -> Result<Body, NoMemory>
    ensures { IfOk result (λ copy. copy ≡ body.now) }
{
    match body {
        Body::Text(bytes) => Ok(Body::Text(bytes.copy()?)),
        Body::Eof => Ok(Body::Eof),
    }
}

impl Message {
    /// A message with a copy of a body.
    pub fn copy_of(id: Id, body: &Body) -> Result<Message, NoMemory>
        ensures { IfOk result (λ m. m ≡ record { id = id; body = body.now }) }
    {
        let body = copy_body(body)?;
        Ok(Message { id, body })
    }

    /// The id of its write.
    pub fn id(&self) -> Id
        ensures { result ≡ self.now.id }
    {
        self.id
    }

    /// What was written.
    pub fn body(&self) -> &Body
        ensures { result.now ≡ self.now.body }
    {
        &self.body
    }
}
