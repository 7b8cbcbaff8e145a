//! What a request says about where its faults can be.
ghost use Rattle.std.specs.Prelude.{◌≡◌};
ghost use Rattle.explanations.specs.Requests.{asks_why};

use command_line::{Request, StartOptions};

/// The files that are read before the work of a request begins.
#[derive(Clone, Copy)]
pub struct Named<'a> {
    pub from: Option<&'a str>,
    pub to: Option<&'a str>,
}

/// Whether the request asks for more than the line of a fault. To explain a code there is nothing that can be asked.
pub fn is_asked(request: &Request<'_>) -> bool
    ensures { result ≡ asks_why request.now }
{
    match request {
        Request::Enact(options) => options.start.why,
        Request::Plan(options) => options.start.why,
        Request::Explore(options) => options.start.why,
        Request::Certify(options) => options.start.why,
        Request::Supervise(options) => options.why,
        _ => false,
    }
}

/// How the modelled master of a request starts.
pub fn start_of<'a>(request: &Request<'a>) -> Option<StartOptions<'a>> {
    match request {
        Request::Enact(options) => Some(options.start),
        Request::Plan(options) => Some(options.start),
        Request::Explore(options) => Some(options.start),
        Request::Certify(options) => Some(options.start),
        _ => None,
    }
}

/// Its files; a master that runs reads that of `--to` only for a word.
pub fn files_of<'a>(request: &Request<'a>) -> Named<'a> {
    if let Request::Supervise(options) = request {
        return Named {
            from: options.from,
            to: None,
        };
    }
    match start_of(request) {
        Some(start) => Named {
            from: start.from,
            to: start.to,
        },
        None => Named {
            from: None,
            to: None,
        },
    }
}
