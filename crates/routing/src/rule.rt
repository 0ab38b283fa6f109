ghost use Rattle.std.specs.Prelude.{◌≡◌, ◌<◌, IfSome};
ghost use Rattle.model.specs.Rules.{Rule};

// Anything that answers two questions about switch numbers 0 to 255. Its meaning is the two maps; each answer is the map's, fit or
// unfit, and no question changes them. A rule is lent beside its fabric and not in one struct with it: many rules are asked of one fabric.
pub trait RouteRule {
    ghost maps: { Self → Rule };

    // The channel by which a packet for this destination leaves this switch, or none.
    fn channel(&self, switch: u8, destination: u8) -> Option<u8>
        ensures is { result ≡ (maps self.now).next switch destination }
        ensures named { IfSome result (λ c. c < 255) };

    // The lane of this pair.
    fn lane(&self, source: u8, destination: u8) -> u8
        ensures { result ≡ (maps self.now).lane source destination };
}
