// The calls of the client API that make no turn.
ghost use Rattle.std.specs.Prelude.{◌≡◌, codes};

use piv_model::ApiAnswer;

/// pivMiddlewareVersion.
pub fn middleware_version() -> &'static str
    ensures { result.now ≡ codes "800-73-4 Client API" }
{
    "800-73-4 Client API"
}

/// pivGenerateKeyPair, which isn't offered.
pub fn generate_key_pair() -> ApiAnswer
    ensures { result ≡ ApiAnswer.Unsupported }
{
    ApiAnswer::Unsupported
}

/// pivEstablishSecureMessaging, which isn't offered.
pub fn establish_secure_messaging() -> ApiAnswer
    ensures { result ≡ ApiAnswer.Unsupported }
{
    ApiAnswer::Unsupported
}
