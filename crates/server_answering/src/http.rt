//! Callers that speak HTTP. A web page may have a browser on the same machine send a request to any port: its lines would
//! be refused one by one, and the body of a request may be a command and an article.

ghost use Rattle.std.specs.Prelude.{◌≡◌};
ghost use Rattle.server_answering.specs.Http.{is_http_line};

use model::Message;

/// Whether a message is a line of the head of a request: its first one (RFC 9112, section 3), or the field that each
/// request has (section 3.2). A first line that is too long isn't known as one.
pub(crate) fn is_http(message: &Message) -> bool {
    match message {
        Message::Line(line) => is_http_line(line.as_slice()),
        Message::Block(_) | Message::TooLong => false,
    }
}

/// Whether a line ends as the first one of a request does, or begins as its field `Host`. No command does.
fn is_http_line(line: &[u8]) -> bool
    ensures { result ≡ is_http_line line.now }
{
    line.ends_with(b" HTTP/1.1") || line.ends_with(b" HTTP/1.0") || line.starts_with(b"Host:")
}
