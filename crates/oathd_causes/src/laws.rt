ghost use Rattle.std.specs.Borrow.{Bor};
ghost use Rattle.std.specs.Prelude.{◌≡◌, ◌∷◌, [], ℕ, List, map, codes, Some, None, false, true};
ghost use Rattle.std.specs.declared.io.ErrorKind.TheVariants.{AddrInUse, AddrNotAvailable, FileTooLarge, IsADirectory, NotADirectory, NotFound, PermissionDenied, QuotaExceeded, ReadOnlyFilesystem, StorageFull, TimedOut};
ghost use Rattle.floor_store.specs.declared.fault.StoreFault.{StoreFault};
ghost use Rattle.secret_text.specs.declared.fault.SecretFault.{SecretFault};
ghost use Rattle.oathd_causes.specs.Causes.{address_cause, file_cause_of, key_cause, socket_cause_of};
ghost use Rattle.floors_file.specs.declared.gathered.FileFault.{FileFault};
ghost use Rattle.floors_file.specs.declared.gathered.FilesFault.{FilesFault};
ghost use Rattle.oathd_causes.specs.Floors.{file_advice, floors_advice, path_advice};
ghost use Rattle.oathd_causes.specs.Named.{bond_cause, named_cause};
ghost use Rattle.oathd_causes.specs.Remedies.{file_remedy, role_among, unfound_cause};
ghost use Rattle.oathd_causes.specs.declared.address.AddressCause.{AddressCause};
ghost use Rattle.oathd_causes.specs.declared.file.FileCause.{FileCause};
ghost use Rattle.oathd_causes.specs.declared.floors.FloorsAdvice.{FloorsAdvice};
ghost use Rattle.oathd_causes.specs.declared.key.KeyCause.{KeyCause};
ghost use Rattle.oathd_causes.specs.declared.named.StoreCause.{StoreCause};
ghost use Rattle.oathd_causes.specs.declared.remedy.FileRemedy.{FileRemedy};
ghost use Rattle.oathd_causes.specs.declared.remedy.FileRole.{FileRole};
ghost use Rattle.oathd_causes.specs.Roster.{names_advice};
ghost use Rattle.oathd_causes.specs.declared.roster.NamesAdvice.{NamesAdvice};
ghost use Rattle.oathd_site.specs.declared.floors.PathFault.{PathFault};
ghost use Rattle.oathd_site.specs.declared.names.NamesFault.{NamesFault};
ghost use Rattle.oathd_causes.specs.declared.socket.SocketCause.{SocketCause};

/// Worked cases. The cause of each error.
pub fn causes_are_worked()
    ensures files { map file_cause_of (NotFound ∷ NotADirectory ∷ IsADirectory ∷ PermissionDenied ∷ ReadOnlyFilesystem
        ∷ StorageFull ∷ QuotaExceeded ∷ FileTooLarge ∷ TimedOut ∷ []) ≡ Some FileCause.Missing ∷ Some FileCause.Missing
        ∷ Some FileCause.Folder ∷ Some FileCause.Denied ∷ Some FileCause.ReadOnly ∷ Some FileCause.Full
        ∷ Some FileCause.Full ∷ Some FileCause.TooLarge ∷ None ∷ [] }
    ensures sockets { map socket_cause_of (AddrInUse ∷ AddrNotAvailable ∷ PermissionDenied ∷ NotFound ∷ [])
        ≡ Some SocketCause.InUse ∷ Some SocketCause.Elsewhere ∷ Some SocketCause.Denied ∷ None ∷ [] }
    ensures keys { map key_cause (SecretFault.BadCharacter 4 ∷ SecretFault.BadLength ∷ SecretFault.TooLong
        ∷ SecretFault.Empty ∷ []) ≡ KeyCause.Character 4 ∷ KeyCause.Length ∷ KeyCause.Length ∷ KeyCause.Length ∷ [] }
    ensures addresses { map address_cause (codes "otp1.example:7101" ∷ codes "[::1]:7101" ∷ codes "192.0.2.1"
        ∷ codes "192.0.2.256:7101" ∷ codes "Z" ∷ [])
        ≡ AddressCause.HostName ∷ AddressCause.Ipv6 ∷ AddressCause.NoPort ∷ AddressCause.Other ∷ AddressCause.HostName
        ∷ [] }
{}

/// Worked cases. The order of causes is: the version, the node, the number of rows.
pub fn store_causes_are_worked()
    ensures none { named_cause (record { version = 2; node = 1; tokens = 50 }) false (Some 1) (Some 50) ≡ None }
    ensures unknown { named_cause (record { version = 2; node = 1; tokens = 50 }) false None None ≡ None }
    ensures one { named_cause (record { version = 1; node = 3; tokens = 51 }) false (Some 1) (Some 50)
        ≡ Some StoreCause.VersionOne }
    ensures version { named_cause (record { version = 4; node = 1; tokens = 50 }) false (Some 1) (Some 50)
        ≡ Some (StoreCause.Version 4) }
    ensures by_names { named_cause (record { version = 3; node = 1; tokens = 50 }) false (Some 2) None
        ≡ Some StoreCause.ByNames }
    ensures named { named_cause (record { version = 3; node = 1; tokens = 50 }) true (Some 1) None ≡ None }
    ensures unnamed { named_cause (record { version = 2; node = 1; tokens = 50 }) true (Some 2) None
        ≡ Some StoreCause.Unnamed }
    ensures node { named_cause (record { version = 2; node = 1; tokens = 51 }) false (Some 2) (Some 50)
        ≡ Some (StoreCause.OtherNode 1 2) }
    ensures rows { named_cause (record { version = 2; node = 1; tokens = 51 }) false (Some 1) (Some 50)
        ≡ Some (StoreCause.OtherRows 51 50) }
{}

/// Worked cases: what differs between the cluster of a store and that of a cluster file.
pub fn bond_causes_are_worked()
    ensures none { bond_cause (record { has_names = true; has_life = true; members = 3 }) 3 ≡ None }
    ensures names { bond_cause (record { has_names = false; has_life = false; members = 3 }) 5
        ≡ Some StoreCause.OtherNames }
    ensures life { bond_cause (record { has_names = true; has_life = false; members = 3 }) 5
        ≡ Some StoreCause.OtherLife }
    ensures members { bond_cause (record { has_names = true; has_life = true; members = 3 }) 5
        ≡ Some (StoreCause.OtherMembers 3 5) }
{}

/// Worked cases. What to do about a file for each reason, what a file is for, and what to say if no cause was found.
pub fn remedies_are_worked()
    ensures missing { map (λ role. file_remedy role FileCause.Missing) (FileRole.Database ∷ FileRole.Users
        ∷ FileRole.Cluster ∷ FileRole.Key ∷ FileRole.Clients ∷ FileRole.Floors ∷ []) ≡ FileRemedy.FindDatabase
        ∷ FileRemedy.MendPath ∷ FileRemedy.MendPath ∷ FileRemedy.FindKey ∷ FileRemedy.WriteClients
        ∷ FileRemedy.TakeFloors ∷ [] }
    ensures database { map (file_remedy FileRole.Database) (FileCause.Folder ∷ FileCause.Denied ∷ FileCause.ReadOnly
        ∷ FileCause.Full ∷ FileCause.TooLarge ∷ []) ≡ FileRemedy.NameFile ∷ FileRemedy.RunAsOwner
        ∷ FileRemedy.MountToWrite ∷ FileRemedy.MakeRoom ∷ FileRemedy.RaiseLimit ∷ [] }
    ensures others { map (file_remedy FileRole.Key) (FileCause.Folder ∷ FileCause.Denied ∷ [])
        ≡ FileRemedy.NameFile ∷ FileRemedy.LetRead ∷ [] }
    ensures roles { map (role_among (Some (codes "c")) (Some (codes "k")) (Some (codes "l")) (codes "u"))
        (codes "c" ∷ codes "k" ∷ codes "l" ∷ codes "u" ∷ codes "f" ∷ []) ≡ FileRole.Cluster ∷ FileRole.Key
        ∷ FileRole.Clients ∷ FileRole.Users ∷ FileRole.Floors ∷ [] }
    ensures first_role { role_among (Some (codes "a")) (Some (codes "a")) None (codes "a") (codes "a")
        ≡ FileRole.Cluster }
    ensures second_role { role_among None (Some (codes "a")) (Some (codes "a")) (codes "a") (codes "a")
        ≡ FileRole.Key }
    ensures third_role { role_among None None (Some (codes "a")) (codes "a") (codes "a") ≡ FileRole.Clients }
    ensures unfound { map unfound_cause (StoreFault.Disk ∷ StoreFault.Unusable ∷ StoreFault.Memory ∷ StoreFault.Spent
        ∷ StoreFault.AlreadyThere ∷ []) ≡ Some StoreCause.Failed ∷ Some StoreCause.Damaged ∷ None ∷ None ∷ None
        ∷ [] }
{}

/// Worked cases. What to do about each fault of floors files.
pub fn advice_is_worked()
    ensures files { map file_advice (FileFault.IsLost ∷ FileFault.SameNode ∷ FileFault.Members ∷ FileFault.Older
        ∷ FileFault.Boot ∷ FileFault.Cluster ∷ FileFault.NoFloor 1 ∷ FileFault.NoUser 2 ∷ []) ≡ FloorsAdvice.LeaveOut
        ∷ FloorsAdvice.LeaveOneOut ∷ FloorsAdvice.TakeWithSameMembers ∷ FloorsAdvice.TakeLater
        ∷ FloorsAdvice.SetTheClock ∷ FloorsAdvice.TakeOfOneCluster ∷ FloorsAdvice.UseItsUsersFile
        ∷ FloorsAdvice.UseItsUsersFile ∷ [] }
    ensures together { map floors_advice (FilesFault.File 2 FileFault.IsLost ∷ FilesFault.NotLost ∷ FilesFault.Missing 3
        ∷ FilesFault.Surplus ∷ FilesFault.TooManyLost ∷ []) ≡ FloorsAdvice.LeaveOut ∷ FloorsAdvice.NameItself
        ∷ FloorsAdvice.TakeFile 3 ∷ FloorsAdvice.NameEachOnce ∷ FloorsAdvice.MakeAllAnew ∷ [] }
    ensures paths { (path : Bor (List ℕ)) → map path_advice (PathFault.TooLong path
        ∷ PathFault.NoUser path 3 ∷ PathFault.File path FileFault.IsLost ∷ PathFault.Ahead path
        ∷ PathFault.Files FilesFault.NotLost ∷ []) ≡ FloorsAdvice.TakeAgain ∷ FloorsAdvice.UseItsUsersFile
        ∷ FloorsAdvice.LeaveOut ∷ FloorsAdvice.SetTheClocks ∷ FloorsAdvice.NameItself ∷ [] }
{}

/// Worked cases. What to do about each fault of names.
pub fn names_are_worked()
    ensures faults { map names_advice (NamesFault.PlainInit ∷ NamesFault.NoNames ∷ NamesFault.NoSince
        ∷ NamesFault.PlainReload ∷ [])
        ≡ NamesAdvice.Begin ∷ NamesAdvice.GiveNames ∷ NamesAdvice.GiveSince ∷ NamesAdvice.GiveNamesToReload ∷ [] }
    ensures migrate { map names_advice (NamesFault.NoMembersWere ∷ NamesFault.OtherMembers 1 3 ∷ NamesFault.OtherKind 2
        ∷ []) ≡ NamesAdvice.GiveMembersWere ∷ NamesAdvice.KeepMembers 1 3 ∷ NamesAdvice.KeepRows 2 ∷ [] }
{}
