// Laws of the definitions, which no code calls.
ghost use Rattle.std.specs.Prelude.{◌≡◌, ◌≤◌, ℕ, List, [], length, Option, All, IfSome, Ok, Err, true};
ghost use Rattle.httparse.specs.Grammar.{RequestHead};
ghost use Rattle.glacier_http.specs.View.{HeadText, text_of};
ghost use Rattle.glacier_http.specs.Messages.{Message, good};
ghost use Rattle.glacier_job.specs.Beginning.{begin_row};
ghost use Rattle.glacier_job.specs.declared.asks.JobAsk.{JobAsk};
ghost use Rattle.glacier_lock.specs.Denied.{delete_archive_row};
ghost use Rattle.glacier_replies.specs.Replies.{refused};
ghost use Rattle.glacier_upload.specs.Single.{upload_row};
ghost use Rattle.glacier_upload.specs.declared.asks.Found.{Found};
ghost use Rattle.glacier_upload.specs.declared.asks.UploadAsk.{UploadAsk};
ghost use Rattle.glacier_vault.specs.Lawful.{IsLawful};
ghost use Rattle.glacier_vault.specs.Rows.{answer};
ghost use Rattle.glacier_machine.specs.Steps.{only_replies};
ghost use Rattle.glacier_job.specs.Work.{HasOrderedRange};
ghost use Rattle.glacier_requests.specs.JobBodies.{job_body_of};
ghost use Rattle.glacier_requests.specs.declared.jobs.JobBody.{JobBody};
ghost use Rattle.glacier_machine.specs.Asks.{job_asked, is_bulk_head};
ghost use Rattle.glacier_machine.specs.Moments.{moment_change};
ghost use Rattle.glacier_machine.specs.SignedRequests.{request_in};
ghost use Rattle.glacier_machine.specs.ArchiveSteps.{upload_step, delete_archive_step};
ghost use Rattle.glacier_machine.specs.JobSteps.{begin_job_step, job_output_step};
ghost use Rattle.glacier_machine.specs.Outputs.{IsOutputOf};
ghost use Rattle.glacier_machine.specs.Outcomes.{outcome_events, action_outcome, events_of, moment_of, one};
ghost use Rattle.glacier_vault.specs.Accounts.{Accounts};
ghost use Rattle.glacier_machine.specs.Verified.{IsSignedBy};
ghost use Rattle.glacier_machine.specs.declared.action.Request.{Request as RequestMade};
ghost use Rattle.glacier_machine.specs.declared.config.Config.{Config as ServiceConfig};
ghost use Rattle.glacier_vault.specs.declared.refusal.Refusal.{Refusal};
ghost use Rattle.glacier_vault.specs.declared.rules.Rules.{Rules as AccountRules};
ghost use Rattle.glacier_vault.specs.declared.state.AccountState.{AccountState as Account};

/// Each event of a message is on the account that signed it: a message that isn't verified has none.
pub fn events_are_signed()
    ensures { (config : ServiceConfig) (accounts : Accounts) (message : Message) (reading : ℕ)
        → All (λ event. IsSignedBy config message reading event.account)
        (outcome_events (one config accounts message reading)) }
{}

/// A request lets time pass for its account, and one that is refused has no other event.
pub fn refused_requests_only_pass()
    ensures passed { (rules : AccountRules) (before : Account) (request : RequestMade) (body : List ℕ)
        (reading : ℕ) → (action_outcome rules before request body reading).passed
        ≡ events_of request.account (moment_of before reading)
        (moment_change (moment_of before reading) before).event [] }
    ensures done { (rules : AccountRules) (before : Account) (request : RequestMade) (body : List ℕ)
        (reading : ℕ) (refusal : Refusal) → request.asked ≡ Err refusal
        → (action_outcome rules before request body reading).done ≡ [] }
    ensures reply { (rules : AccountRules) (before : Account) (request : RequestMade) (body : List ℕ)
        (reading : ℕ) (refusal : Refusal) → request.asked ≡ Err refusal
        → (action_outcome rules before request body reading).reply ≡ refused refusal }
{}

/// What a message asks for whose head says that it is an upload is decided before its body: by the
/// head and the body's length. What time does for it is decided by the head alone.
pub fn bulk_messages_are_decided_at_their_heads()
    ensures request { (config : ServiceConfig) (head : HeadText) (a b : List ℕ) (reading : ℕ)
        → is_bulk_head head ≡ true → length a ≡ length b
        → request_in config head a reading ≡ request_in config head b reading }
    ensures passed { (config : ServiceConfig) (accounts : Accounts) (head : RequestHead) (body : List ℕ)
        (reading : ℕ) → is_bulk_head (text_of head) ≡ true
        → (one config accounts (good head body) reading).passed
        ≡ (one config accounts (good head []) reading).passed }
{}

/// A step that refuses changes nothing.
pub fn refused_steps_change_nothing()
    ensures upload { (rules : AccountRules) (m : ℕ) (ask : UploadAsk) (found : Found) (before : Account)
        (refusal : Refusal) → answer (upload_row before m ask found) ≡ Err refusal
        → upload_step rules m ask found before ≡ only_replies before (refused refusal) }
    ensures deletion { (rules : AccountRules) (m : ℕ) (name : List ℕ) (archive : ℕ) (before : Account)
        (refusal : Refusal) → answer (delete_archive_row rules before m name archive) ≡ Err refusal
        → delete_archive_step rules m name archive before ≡ only_replies before (refused refusal) }
    ensures job { (rules : AccountRules) (m : ℕ) (ask : JobAsk) (before : Account) (refusal : Refusal)
        → answer (begin_row rules before m ask) ≡ Err refusal
        → begin_job_step rules m ask before ≡ only_replies before (refused refusal) }
{}

/// A step with an event does what its row does, whose event fits the account.
pub fn events_are_of_rows()
    ensures upload { (rules : AccountRules) (m : ℕ) (ask : UploadAsk) (found : Found) (before : Account)
        → IfSome (upload_step rules m ask found before).answer.change.event
        (λ event. upload_row before m ask found ≡ Ok (
          (upload_step rules m ask found before).state,
          (upload_step rules m ask found before).answer.change,
        )) }
    ensures deletion { (rules : AccountRules) (m : ℕ) (name : List ℕ) (archive : ℕ) (before : Account)
        → IfSome (delete_archive_step rules m name archive before).answer.change.event
        (λ event. delete_archive_row rules before m name archive
        ≡ Ok (
          (delete_archive_step rules m name archive before).state,
          (delete_archive_step rules m name archive before).answer.change,
        )) }
    ensures job { (rules : AccountRules) (m : ℕ) (ask : JobAsk) (before : Account)
        → IfSome (begin_job_step rules m ask before).answer.change.event
        (λ event. begin_row rules before m ask ≡ Ok (
          (begin_job_step rules m ask before).state,
          (begin_job_step rules m ask before).answer.change,
        )) }
{}

/// The bytes that answer for the output of a job are a stretch of the archive that the job names,
/// which is live or held, from within the job's range.
pub fn output_is_of_its_archive()
    ensures { (account : Account) (name : List ℕ) (job : ℕ) (range : Option (ℕ × ℕ)) (inventory : List ℕ)
        → IsLawful account → IfSome range (λ range. range.0 ≤ range.1)
        → IfSome (job_output_step name job range inventory account).answer.stretch
        (IsOutputOf account name job) }
{}

/// A job that a body asks for has a range that begins where it ends or before, if it has one.
pub fn asked_ranges_are_in_order()
    ensures { (text : List ℕ) (body : JobBody) (vault : List ℕ) → job_body_of text ≡ Ok body
        → HasOrderedRange (job_asked vault body).kind }
{}
