ghost use Rattle.model.specs.Laws.{PlacesUnseen};
ghost use Rattle.model.specs.Promise.{Promise};

// The whole promise: in time, in motion, in order and in place, for every accepted setup and every list of calls.
pub fn promise_holds()
    ensures { Promise }
{}

// Leaving the places of the posts out changes no answer.
pub fn places_unseen()
    ensures { PlacesUnseen }
{}
