ghost use Rattle.std.specs.Prelude.{◌≤◌, map, length};
ghost use Rattle.run.specs.Words.{request_of};
ghost use Rattle.run.specs.Runs.{KeepsAll, Replayed};

use crate::run::Run;
use crate::words::{Answer, Request};
use fabric::{CallFault, Fabric};
use routing::RouteRule;

impl<'a, R: RouteRule> Run<'a, R> {
    // Makes all requests in order, and writes their answers to the front of the list.
    fn answer_all(&mut self, requests: &[Request], answers: &mut [Answer])
        requires { length requests.now ≤ length answers.old }
        ensures { KeepsAll R.maps self.old (map request_of requests.now) self.new answers.old answers.new }
    {
        // By number, since a proof knows nothing of what is written through a zip with `iter_mut`.
        for (i, request) in requests.iter().enumerate() {
            answers[i] = self.answer(*request);
        }
    }

    // Opens a run, makes all requests in order, writes their answers to the front of the list, and hands the run over. Refused before
    // anything else: first a lane count that is not 1 to 8, then a list that is shorter than the requests.
    pub fn replay(
        fabric: &'a Fabric,
        lanes: u32,
        rule: &'a R,
        requests: &[Request],
        answers: &mut [Answer],
    ) -> Result<Run<'a, R>, CallFault>
        ensures { Replayed R.maps fabric.now lanes rule.now requests.now answers.old result answers.new }
    {
        let mut run = Run::open(fabric, lanes, rule)?;
        if answers.len() < requests.len() {
            return Err(CallFault::ShortList);
        }
        run.answer_all(requests, answers);
        Ok(run)
    }
}
