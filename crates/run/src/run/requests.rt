ghost use Rattle.model.specs.Packets.{make, look, look_sender};
ghost use Rattle.run.specs.Words.{request_of, request_reply, answer_reply};
ghost use Rattle.run.specs.Runs.{Keeps};

use crate::run::Run;
use crate::words::{Answer, Call, Request};
use routing::{RouteRule, RuleFault};

impl<R: RouteRule> Run<'_, R> {
    // Makes one request, or says what refuses it.
    fn make(&mut self, request: Request) -> Result<Answer, RuleFault>
        ensures { Keeps R.maps self.old (request_of request) self.new (request_reply result) }
    {
        match request {
            Request::Make(Call::Post(source, destination, tag)) => {
                self.post(source, destination, tag)?;
                Ok(Answer::Taken)
            }
            Request::Make(Call::Serve(channel, lane)) => {
                Ok(Answer::Served(self.serve(channel, lane)?))
            }
            Request::Look(channel, lane) => Ok(Answer::Holds(self.look(channel, lane)?)),
            Request::LookSender(switch, lane) => Ok(Answer::Holds(self.look_sender(switch, lane)?)),
        }
    }

    // Makes one request.
    pub fn answer(&mut self, request: Request) -> Answer
        ensures { Keeps R.maps self.old (request_of request) self.new (answer_reply result) }
    {
        self.make(request).unwrap_or_else(Answer::Refused)
    }
}
