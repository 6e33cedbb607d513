//! The text of each reply, with its code (RFC 3977, appendix C; the wording is this project's own).

ghost use Rattle.std.specs.Prelude.{◌≡◌};
ghost use Rattle.model.specs.Stream.{line};
ghost use Rattle.session_replies.specs.Replies.{headed, sent};

/// A one-line reply.
#[derive(Clone, Copy)]
pub enum Reply {
    Bye,
    Transferred,
    Received,
    SendTransferred,
    SendPosted,
    ServiceEnds,
    NoSuchGroup,
    NoGroupSelected,
    NoCurrentArticle,
    NoNextArticle,
    NoPreviousArticle,
    NoSuchNumber,
    NoSuchArticle,
    NotWanted,
    TryLater,
    Rejected,
    NotAccepted,
    UnknownCommand,
    SyntaxError,
}

impl Reply {
    /// The text of the reply, without CRLF.
    #[tactic(auto, unfolding(model::specs::Replies::bye, model::specs::Replies::transferred, model::specs::Replies::received, model::specs::Replies::send_transferred, model::specs::Replies::send_posted, model::specs::Replies::service_ends, model::specs::Replies::no_such_group, model::specs::Replies::no_group_selected, model::specs::Replies::no_current_article, model::specs::Replies::no_next_article, model::specs::Replies::no_previous_article, model::specs::Replies::no_such_number, model::specs::Replies::no_such_article, model::specs::Replies::not_wanted, model::specs::Replies::try_later, model::specs::Replies::rejected, model::specs::Replies::not_accepted, model::specs::Replies::unknown_command, model::specs::Replies::syntax_error))]
    pub fn text(self) -> &'static [u8]
        ensures { line result.now ≡ sent self }
    {
        match self {
            Reply::Bye => b"205 Bye",
            Reply::Transferred => b"235 Article transferred",
            Reply::Received => b"240 Article received",
            Reply::SendTransferred => b"335 Send article",
            Reply::SendPosted => b"340 Send article",
            Reply::ServiceEnds => b"400 Service ends",
            Reply::NoSuchGroup => b"411 No such group",
            Reply::NoGroupSelected => b"412 No group selected",
            Reply::NoCurrentArticle => b"420 No current article",
            Reply::NoNextArticle => b"421 No next article",
            Reply::NoPreviousArticle => b"422 No previous article",
            Reply::NoSuchNumber => b"423 No such article number",
            Reply::NoSuchArticle => b"430 No such article",
            Reply::NotWanted => b"435 Article not wanted",
            Reply::TryLater => b"436 Try again later",
            Reply::Rejected => b"437 Article rejected",
            Reply::NotAccepted => b"441 Article not accepted",
            Reply::UnknownCommand => b"500 Unknown command",
            Reply::SyntaxError => b"501 Syntax error",
        }
    }
}

/// The first line of a multi-line reply.
#[derive(Clone, Copy)]
pub enum Heading {
    Help,
    Capabilities,
    Information,
    Overview,
    Articles,
    Groups,
}

impl Heading {
    /// The text of the line, without CRLF.
    pub fn text(self) -> &'static [u8]
        ensures { result.now ≡ headed self }
    {
        match self {
            Heading::Help => b"100 Help follows",
            Heading::Capabilities => b"101 Capabilities follow",
            Heading::Information => b"215 Information follows",
            Heading::Overview => b"224 Overview follows",
            Heading::Articles => b"230 New articles follow",
            Heading::Groups => b"231 New groups follow",
        }
    }
}

/// A multi-line reply that never changes.
#[derive(Clone, Copy)]
pub enum FixedBlock {
    Capabilities,
    Help,
    OverviewFormat,
}
